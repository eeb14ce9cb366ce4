use crate::link_names::LinkNames;
use crate::settings::Settings;

/// To serve several links.
#[derive(Drop)]
pub struct AskedLinks<'a> {
    /// The book's file.
    pub book: &'a str,
    /// The log's.
    pub log: &'a str,
    /// How to serve.
    pub settings: Settings,
    /// The links: 64 at most.
    pub links: Vec<LinkNames<'a>>,
}
