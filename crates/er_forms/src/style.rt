//! How the page looks: on a screen, light and dark, on a phone, and on paper.

/// The style sheet.
pub(crate) const STYLE: &[u8] = br#"
:root {
  color-scheme: light dark;
  --paper: #ffffff; --ink: #1c1e21; --soft: #5a6069; --line: #d3d7dc; --fill: #f3f5f7;
  --link: #0b57b8; --bad: #b3261e; --bad-fill: #fdecea; --bar: #3b7d4f; --dim: #9aa1a9;
}
@media (prefers-color-scheme: dark) {
  :root {
    --paper: #16181b; --ink: #e6e8ea; --soft: #a5acb4; --line: #3a3f45; --fill: #202327;
    --link: #86b7ff; --bad: #ff8a80; --bad-fill: #3a1d1b; --bar: #6fbf86; --dim: #767d86;
  }
}
* { box-sizing: border-box; }
body { margin: 0; background: var(--paper); color: var(--ink); font: 16px/1.5 system-ui, sans-serif; }
main { max-width: 66rem; margin: 0 auto; padding: 1rem; }
h1 { font-size: 1.6rem; line-height: 1.25; margin: 0.5rem 0; }
h2 { font-size: 1.25rem; margin: 2rem 0 0.5rem; border-bottom: 1px solid var(--line); }
h3 { font-size: 1rem; margin: 1rem 0 0.25rem; }
p { margin: 0.5rem 0; max-width: 46rem; }
a { color: var(--link); }
code, pre, .name { font-family: ui-monospace, "DejaVu Sans Mono", Menlo, Consolas, monospace; font-size: 0.92em; }
.name, td { overflow-wrap: anywhere; }
.soft { color: var(--soft); }
.totals { display: flex; flex-wrap: wrap; gap: 0.5rem; margin: 1rem 0; padding: 0; }
.totals div { background: var(--fill); border: 1px solid var(--line); border-radius: 6px; padding: 0.4rem 0.9rem; }
.totals dt { color: var(--soft); font-size: 0.85rem; }
.totals dd { margin: 0; font-size: 1.25rem; font-variant-numeric: tabular-nums; }
.notice { border-left: 4px solid var(--bad); background: var(--bad-fill); padding: 0.5rem 0.75rem; }
.wide { overflow-x: auto; }
table { border-collapse: collapse; width: 100%; font-variant-numeric: tabular-nums; }
caption { text-align: left; color: var(--soft); padding-bottom: 0.25rem; }
th, td { text-align: left; vertical-align: top; padding: 0.3rem 0.7rem 0.3rem 0; border-bottom: 1px solid var(--line); }
th { font-weight: 600; white-space: nowrap; }
th.number, td.number { width: 1%; text-align: right; overflow-wrap: normal; white-space: nowrap; }
label { display: block; font-weight: 600; }
input, button { font: inherit; color: inherit; background: var(--paper); border: 1px solid var(--soft); border-radius: 6px; padding: 0.35rem 0.6rem; }
input { width: 100%; max-width: 30rem; }
button { cursor: pointer; background: var(--fill); margin: 0.5rem 0; }
:focus-visible { outline: 3px solid var(--link); outline-offset: 2px; }
details { border: 1px solid var(--line); border-radius: 6px; margin: 0.6rem 0; }
summary { cursor: pointer; padding: 0.5rem 0.75rem; background: var(--fill); border-radius: 6px; }
summary .name { font-weight: 600; }
.body { padding: 0.25rem 0.75rem 0.75rem; }
ol.story { padding-left: 1.5rem; margin: 0.25rem 0; }
ol.story li { margin: 0.2rem 0; }
ul.calls, ul.threads { padding-left: 1.5rem; margin: 0; list-style: none; }
li.race { color: var(--bad); }
pre.source { margin: 0.25rem 0; padding: 0.5rem 0; border: 1px solid var(--line); border-radius: 6px; overflow-x: auto; tab-size: 4; }
pre.source span { display: block; padding: 0 0.75rem; min-width: max-content; }
pre.source .here { background: var(--bad-fill); border-left: 4px solid var(--bad); padding-left: calc(0.75rem - 4px); }
pre.source .margin { display: inline-block; padding: 0; min-width: 4em; color: var(--soft); }
svg.picture { display: block; max-width: 100%; height: auto; min-width: 26rem; font: 13px system-ui, sans-serif; }
svg text { fill: var(--ink); }
svg .faint { fill: var(--soft); }
svg .mono { font-family: ui-monospace, "DejaVu Sans Mono", Menlo, Consolas, monospace; font-size: 12px; }
svg .head { font-weight: 600; }
svg .lane, svg .rule { stroke: var(--line); stroke-width: 1; }
svg .bar { fill: var(--bar); }
svg .useless { fill: none; stroke: var(--dim); stroke-width: 2; stroke-dasharray: 3 3; }
svg .cut { stroke: var(--bad); stroke-width: 2.5; }
svg .broken { stroke: var(--bad); stroke-width: 1.5; stroke-dasharray: 2 4; }
svg .write { fill: var(--ink); stroke: var(--ink); stroke-width: 2; }
svg .read { fill: var(--paper); stroke: var(--ink); stroke-width: 2; }
svg .row-race { fill: var(--bad-fill); }
svg text.alarm { fill: var(--bad); font-weight: 600; }
@media (max-width: 40rem) {
  main { padding: 0.6rem; }
  h1 { font-size: 1.3rem; }
  th, td { padding-right: 0.45rem; font-size: 0.92rem; }
}
@media print {
  :root {
    color-scheme: light;
    --paper: #ffffff; --ink: #000000; --soft: #444444; --line: #bbbbbb; --fill: #f3f3f3;
    --link: #000000; --bad: #a00000; --bad-fill: #f4e4e2; --bar: #3b7d4f; --dim: #777777;
  }
  body { font-size: 10.5pt; }
  main { max-width: none; padding: 0; }
  form, button { display: none; }
  a { text-decoration: none; }
  details, tr, svg.picture { break-inside: avoid; }
  svg.picture { min-width: 0; }
  .wide, pre.source { overflow: visible; }
  pre.source { white-space: pre-wrap; }
  pre.source span { min-width: 0; }
}
"#;
