use crate::answers::is_answer;
use crate::body_lines::body;
use issuer_rows::{Frame, ReplyBody};
use std::alloc::Global;
use std::test::Fail;

/// As many requests of 1 on card A, with a trace number each.
pub fn requests(alloc: Global, many: u32) -> Result<Vec<Frame>, Fail> {
    let mut frames = Vec::new(alloc);
    for trace in 0..many {
        let line = format!(in alloc; "1100 {trace:06} A 1")?;
        frames.push(body(line.as_str()).ok_or("a body")?)?;
    }
    Ok(frames)
}

/// How many of the replies have this action and approval code.
pub fn count_of(alloc: Global, replies: &[ReplyBody], answer: &str) -> u64 {
    let mut count = 0u64;
    for reply in replies {
        count = count.saturating_add(u64::from(is_answer(alloc, reply, answer)));
    }
    count
}
