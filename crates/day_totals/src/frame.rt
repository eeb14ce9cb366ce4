// What stands before the sections of a page.
pub(crate) const PAGE_HEAD: &str = "<!DOCTYPE html>
<html lang=\"en\">
<head>
<meta charset=\"utf-8\">
<meta name=\"viewport\" content=\"width=device-width\">
<title>Day report</title>
<style>
:root { color-scheme: light dark; }
body { font: 16px/1.4 sans-serif; margin: 2em auto; max-width: 60em; padding: 0 1em; }
h2 { font-size: 1em; margin: 1.5em 0 0.5em; }
td { padding: 0 1em 0 0; }
.number { text-align: right; font-variant-numeric: tabular-nums; }
rect { fill: currentColor; opacity: 0.6; }
section { break-inside: avoid; }
</style>
</head>
<body>
<h1>Day report</h1>
";

// What stands behind them.
pub(crate) const PAGE_FOOT: &str =
    "<p>Amounts are in minor units. From approved requests on, messages that are marked as repeats are left out.</p>
</body>
</html>
";
