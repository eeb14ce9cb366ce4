use crate::field_kind::FieldKind;

/// A field of an entry: its key, and what it holds.
#[derive(Clone, Copy)]
pub(crate) struct Field {
    pub(crate) key: &'static str,
    pub(crate) kind: FieldKind,
}
