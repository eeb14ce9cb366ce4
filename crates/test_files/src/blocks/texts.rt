//! Block files and their replies, byte for byte.

use std::alloc::{AllocError, Global};

// A file without blocks, and its replies.
pub(crate) const EMPTY: &[u8] = b"I83M\x00\x01\x00\x00\x00\x00";

pub(crate) const EMPTY_REPLIES: &[u8] = b"I83T\x00\x01\x00\x00\x00\x00";

// The number of blocks is 1,001.
pub(crate) const TOO_MANY: &[u8] = b"I83M\x00\x01\x00\x00\x03\xe9";

// Two blocks of a request of 60.00 each, of 104 bytes.
pub(crate) const TWO_REQUESTS: &[u8] =
    b"I83M\x00\x01\x00\x00\x00\x02\x00\x00\x00\x01\x00\x621100\x72\x30\x01\x01\x00\x80\x80\x00164111110000000005000000000000006000011012000000000126011012000010006123456TERM0001978\x00\x00\x00\x01\x00\x621100\x72\x30\x01\x01\x00\x80\x80\x00164111110000000005000000000000006000011012000000000226011012000010006123456TERM0001978";

// Their replies: 000 with the approval code 000001, and 116.
pub(crate) const TWO_REPLIES: &[u8] =
    b"I83T\x00\x01\x00\x00\x00\x02\x00\x00\x00\x01\x00\x69R1110\x72\x30\x00\x01\x06\x80\x80\x00164111110000000005000000000000006000011012000000000126011012000006123456000001000TERM0001978\x00\x00\x00\x01\x00\x63R1110\x72\x30\x00\x01\x02\x80\x80\x00164111110000000005000000000000006000011012000000000226011012000006123456116TERM0001978";

// A block of a request of 1.00, and one of its full reversal.
pub(crate) const REQUEST_AND_REVERSAL: &[u8] =
    b"I83M\x00\x01\x00\x00\x00\x02\x00\x00\x00\x01\x00\x621100\x72\x30\x01\x01\x00\x80\x80\x00164111110000000005000000000000000100011012000000000126011012000010006123456TERM0001978\x00\x00\x00\x01\x00\x821420\x72\x30\x01\x01\x00\x80\x81\x00164111110000000005000000000000000100011012000000000226011012000040006123456TERM000197830110000000126011012000006123456";

// A block of a request of 1.00 as the first of two, and nothing behind it.
pub(crate) const CUT: &[u8] =
    b"I83M\x00\x01\x00\x00\x00\x02\x00\x00\x00\x01\x00\x621100\x72\x30\x01\x01\x00\x80\x80\x00164111110000000005000000000000000100011012000000000126011012000010006123456TERM0001978";

// The head of a file of 1,000 blocks, and a block of a request of 0.01 before and behind its trace number.
const THOUSAND: &[u8] = b"I83M\x00\x01\x00\x00\x03\xe8";

const BEFORE_TRACE: &[u8] =
    b"\x00\x00\x00\x01\x00\x621100\x72\x30\x01\x01\x00\x80\x80\x001641111100000000050000000000000000010110120000";

const BEHIND_TRACE: &[u8] = b"26011012000010006123456TERM0001978";

// 1,000 blocks of a request of 0.01 each, with trace numbers from 000001.
pub(crate) fn thousand_requests(alloc: Global) -> Result<Vec<u8>, AllocError> {
    let mut file = Vec::from_slice(alloc, THOUSAND)?;
    for number in 1..1001u32 {
        let trace = format!(in alloc; "{number:06}")?;
        file.extend_from_slice(BEFORE_TRACE)?;
        file.extend_from_slice(trace.as_bytes())?;
        file.extend_from_slice(BEHIND_TRACE)?;
    }
    Ok(file)
}
