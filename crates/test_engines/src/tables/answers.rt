//! What a body is answered.

use issuer_rows::ReplyBody;
use std::alloc::Global;
use test_fixtures::is_answer;

/// Whether these are the answers to the first three bodies.
pub(crate) fn begin_with(alloc: Global, replies: &[ReplyBody], answers: &[&str; 3]) -> bool {
    if replies.len() < 3 {
        return false;
    }
    is_answer(alloc, &replies[0], answers[0])
        & is_answer(alloc, &replies[1], answers[1])
        & is_answer(alloc, &replies[2], answers[2])
}
