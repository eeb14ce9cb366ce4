//! The words of messages, rows and tables, from one place: `specs/Words` passes on what those of `iso8583` and `issuer_rows` define,
//! so that a proof names one module.
