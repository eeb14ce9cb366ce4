//! Texts from outside in a page.

use day_totals::escape;
use std::process::Abort;

#[test]
fn escapes_markup(rt: HostRuntime) {
    let mut html = Vec::new(rt.alloc());
    escape(&mut html, b"<b>&\"AT'").expect(&rt, "room");
    assert!(rt;
        html.as_slice() == b"&lt;b&gt;&amp;&quot;AT'".as_slice(),
        "another text"
    );
}
