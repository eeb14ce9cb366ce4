//! Books of version 3 with an entry each.

pub(crate) const ACCOUNT: &str =
    r#"{"accounts":[{"available":10000,"currency":"978","id":"4111110000000005"}],"ahead":[],"budgets":[],"cards":[],"days":[],"originals":[],"version":3}"#;

pub(crate) const AHEAD: &str =
    r#"{"accounts":[],"ahead":[{"acquirer":"123456","kind":"request","pan":"4111110000000005","reversal":{"acquirer":"123456","stamp":"260110120000","trace":"000002"},"stamp":"260110120000","trace":"000001"}],"budgets":[],"cards":[],"days":[],"originals":[],"version":3}"#;

pub(crate) const BUDGET: &str =
    r#"{"accounts":[],"ahead":[],"budgets":[{"cap":400,"left":500,"mode":"stand-in","prefix":"411111"}],"cards":[],"days":[],"originals":[],"version":3}"#;

pub(crate) const CARD: &str =
    r#"{"accounts":[],"ahead":[],"budgets":[],"cards":[{"account":"4111110000000005","approvals":0,"day_amount":20000,"day_count":3,"expiry":"2812","pan":"4111110000000005","second":null,"status":"active"}],"days":[],"originals":[],"version":3}"#;

pub(crate) const DAY: &str =
    r#"{"accounts":[],"ahead":[],"budgets":[],"cards":[],"days":[{"count":1,"day":"260110","pan":"4111110000000005","sum":6000}],"originals":[],"version":3}"#;

pub(crate) const ORIGINAL: &str =
    r#"{"accounts":[],"ahead":[],"budgets":[],"cards":[],"days":[],"originals":[{"account":"4111110000000005","acquirer":"123456","action":"000","amount":6000,"approval":"000001","kind":"request","paid":"account","pan":"4111110000000005","processing":"000000","reversed":null,"stamp":"260110120000","stay":6000,"trace":"000001"}],"version":3}"#;
