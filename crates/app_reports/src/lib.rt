//! What the program does for `switch why`, why a message of a batch was answered so, and for `switch report`, how a day went.
#![tactic(auto)]

mod apart;
mod form_asked;
mod paging;
mod report_answering;
mod report_asking;
mod report_fault;
mod report_help;
mod report_telling;
mod sought;
mod why_answering;
mod why_asking;
mod why_fault;
mod why_help;
mod why_listing;
mod why_telling;

pub use report_answering::report_of;
pub use report_asking::{ReportAsked, report_asked};
pub use report_fault::ReportFault;
pub use report_help::REPORT_HELP;
pub use report_telling::answer_report;
pub use sought::Sought;
pub use why_answering::why_of;
pub use why_asking::{WhyAsked, why_asked};
pub use why_fault::WhyFault;
pub use why_help::WHY_HELP;
pub use why_telling::answer_why;
