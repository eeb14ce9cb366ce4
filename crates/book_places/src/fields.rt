//! The fields of the entries of each list, in the order of their keys.

use crate::field::Field;
use crate::field_kind::FieldKind;
use book_laws::{BookVersion, RowList};

const CARD: [Field; 8] = [
    Field {
        key: "account",
        kind: FieldKind::Account,
    },
    Field {
        key: "approvals",
        kind: FieldKind::Count,
    },
    Field {
        key: "day_amount",
        kind: FieldKind::Money,
    },
    Field {
        key: "day_count",
        kind: FieldKind::Count,
    },
    Field {
        key: "expiry",
        kind: FieldKind::Month,
    },
    Field {
        key: "pan",
        kind: FieldKind::Pan,
    },
    Field {
        key: "second",
        kind: FieldKind::OptionalAccount,
    },
    Field {
        key: "status",
        kind: FieldKind::Status,
    },
];

const OLD_CARD: [Field; 8] = [
    Field {
        key: "approvals",
        kind: FieldKind::Count,
    },
    Field {
        key: "available",
        kind: FieldKind::Money,
    },
    Field {
        key: "currency",
        kind: FieldKind::Currency,
    },
    Field {
        key: "day_amount",
        kind: FieldKind::Money,
    },
    Field {
        key: "day_count",
        kind: FieldKind::Count,
    },
    Field {
        key: "expiry",
        kind: FieldKind::Month,
    },
    Field {
        key: "pan",
        kind: FieldKind::Pan,
    },
    Field {
        key: "status",
        kind: FieldKind::Status,
    },
];

const DAY: [Field; 4] = [
    Field {
        key: "count",
        kind: FieldKind::Count,
    },
    Field {
        key: "day",
        kind: FieldKind::Day,
    },
    Field {
        key: "pan",
        kind: FieldKind::Pan,
    },
    Field {
        key: "sum",
        kind: FieldKind::Money,
    },
];

const BUDGET: [Field; 4] = [
    Field {
        key: "cap",
        kind: FieldKind::Money,
    },
    Field {
        key: "left",
        kind: FieldKind::Money,
    },
    Field {
        key: "mode",
        kind: FieldKind::Mode,
    },
    Field {
        key: "prefix",
        kind: FieldKind::Prefix,
    },
];

const ORIGINAL: [Field; 13] = [
    Field {
        key: "account",
        kind: FieldKind::OptionalAccount,
    },
    Field {
        key: "acquirer",
        kind: FieldKind::Acquirer,
    },
    Field {
        key: "action",
        kind: FieldKind::Action,
    },
    Field {
        key: "amount",
        kind: FieldKind::Amount,
    },
    Field {
        key: "approval",
        kind: FieldKind::OptionalApproval,
    },
    Field {
        key: "kind",
        kind: FieldKind::Kind,
    },
    Field {
        key: "paid",
        kind: FieldKind::Paid,
    },
    Field {
        key: "pan",
        kind: FieldKind::Pan,
    },
    Field {
        key: "processing",
        kind: FieldKind::Processing,
    },
    Field {
        key: "reversed",
        kind: FieldKind::OptionalIdentity,
    },
    Field {
        key: "stamp",
        kind: FieldKind::Stamp,
    },
    Field {
        key: "stay",
        kind: FieldKind::Amount,
    },
    Field {
        key: "trace",
        kind: FieldKind::Trace,
    },
];

const OLD_ORIGINAL: [Field; 12] = [
    Field {
        key: "acquirer",
        kind: FieldKind::Acquirer,
    },
    Field {
        key: "action",
        kind: FieldKind::Action,
    },
    Field {
        key: "amount",
        kind: FieldKind::Amount,
    },
    Field {
        key: "approval",
        kind: FieldKind::OptionalApproval,
    },
    Field {
        key: "kind",
        kind: FieldKind::Kind,
    },
    Field {
        key: "paid",
        kind: FieldKind::PaidByCard,
    },
    Field {
        key: "pan",
        kind: FieldKind::Pan,
    },
    Field {
        key: "processing",
        kind: FieldKind::Processing,
    },
    Field {
        key: "reversed",
        kind: FieldKind::OptionalIdentity,
    },
    Field {
        key: "stamp",
        kind: FieldKind::Stamp,
    },
    Field {
        key: "stay",
        kind: FieldKind::Amount,
    },
    Field {
        key: "trace",
        kind: FieldKind::Trace,
    },
];

const MARK: [Field; 6] = [
    Field {
        key: "acquirer",
        kind: FieldKind::Acquirer,
    },
    Field {
        key: "kind",
        kind: FieldKind::Kind,
    },
    Field {
        key: "pan",
        kind: FieldKind::Pan,
    },
    Field {
        key: "reversal",
        kind: FieldKind::Identity,
    },
    Field {
        key: "stamp",
        kind: FieldKind::Stamp,
    },
    Field {
        key: "trace",
        kind: FieldKind::Trace,
    },
];

const ACCOUNT: [Field; 3] = [
    Field {
        key: "available",
        kind: FieldKind::Money,
    },
    Field {
        key: "currency",
        kind: FieldKind::Currency,
    },
    Field {
        key: "id",
        kind: FieldKind::Account,
    },
];

/// The fields of an entry of the list.
pub(crate) fn fields_of(version: BookVersion, list: RowList) -> &'static [Field] {
    let old = version.has_card_money();
    match list {
        RowList::Cards if old => &OLD_CARD,
        RowList::Cards => &CARD,
        RowList::Days => &DAY,
        RowList::Budgets => &BUDGET,
        RowList::Originals if old => &OLD_ORIGINAL,
        RowList::Originals => &ORIGINAL,
        RowList::Ahead => &MARK,
        RowList::Accounts => &ACCOUNT,
    }
}
