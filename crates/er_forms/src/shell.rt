//! The markup of the page: what stands around the style, the report, the excerpts and the script.

/// What stands before the style sheet. The policy lets the browser use this style sheet and this script alone, by their SHA-256, and load
/// nothing. `tests/html_tests.py` says what the two must be.
pub(crate) const OPENING: &[u8] = br#"<!doctype html>
<html lang="en">
<head>
<meta charset="utf-8">
<meta http-equiv="Content-Security-Policy" content="default-src 'none'; style-src 'sha256-5zEzyk566ktSln2jz1WHvZKeGpMj2uBcFiJqLAXBeHM='; script-src 'sha256-NpcSkMXDgJMbKOVsMm8OvGmzMFYohXAXUYyC0BzB1B4='; base-uri 'none'; form-action 'none'">
<meta name="viewport" content="width=device-width, initial-scale=1">
<meta name="color-scheme" content="light dark">
<title>eraser</title>
<style>"#;

/// What stands between the style sheet and the report.
pub(crate) const BODY: &[u8] = br#"</style>
</head>
<body>
<noscript><p>This page makes its tables and pictures by a script, and scripts are off here. The report is in the page's source, as JSON.</p></noscript>
<main id="page"></main>
<script type="application/json" id="report">
"#;

/// What stands between the report and the excerpts.
pub(crate) const BETWEEN: &[u8] = br#"</script>
<script type="application/json" id="sources">
"#;

/// What stands between the excerpts and the script.
pub(crate) const BEFORE_SCRIPT: &[u8] = br#"
</script>
<script>"#;

/// What stands behind the script.
pub(crate) const CLOSING: &[u8] = br#"</script>
</body>
</html>
"#;
