//! How a page looks.

/// The style of a page, except for the sizes of a drawing.
pub const STYLE: &str = "\
body { margin: 16px 24px 48px; background: #fff; color: #222; font: 15px/1.45 system-ui, sans-serif; }
h1 { margin: 24px 0 8px; font-size: 22px; overflow-wrap: anywhere; }
h2 { flex: 0 0 100%; margin: 0 0 4px; font-size: 14px; font-weight: 600; overflow-wrap: anywhere; }
.message { display: flex; flex-wrap: wrap; align-items: flex-start; column-gap: 20px; margin: 0 0 28px;
  padding: 14px 18px;
  border: 1px solid #d5d9de; border-radius: 8px; }
.large, .more { color: #666; }
.more, p.refused { flex: 0 0 100%; }
.legend { margin: 0 0 20px; color: #555; font-size: 13px; line-height: 28px; }
.legend span { display: inline-block; margin: 0 6px 0 0; padding: 0 8px; border: 1px solid #1f6fb8; border-radius: 3px;
  background: #dcebfb; color: #222; line-height: 22px; }
.legend .key-pointer { color: #1f6fb8; font-weight: 700; }
.legend .key-root { border: 2px solid #222; background: #fff; font-weight: 700; line-height: 20px; }
.legend .key-null { border-color: #9dc2e6; background: #edf4fc; color: #79a9d6; }
.legend .key-data { border-color: transparent; }
.legend .key-tag { border-style: dashed; font-style: italic; }
.legend .key-landing { border: 3px double #1f6fb8; line-height: 18px; }
.legend .key-free { border: 1px dashed #d5d9de; background: #fff; color: #a3a9b0; }
.legend .key-refused { border-color: #c4001d; background: #ffdcdc; color: #c4001d; font-weight: 700; }
p.refused { color: #c4001d; font-weight: 600; }
.drawing { position: relative; flex: 0 1 var(--drawing-width); min-width: 0; overflow-x: auto; overflow-y: hidden; }
h3 { box-sizing: border-box; height: var(--heading-height); margin: 0; padding-top: 10px;
  font-size: 13px; line-height: 24px; font-weight: 600; color: #555; }
.segment { border-collapse: separate; border-spacing: var(--column-gap) var(--row-gap);
  margin: 0 0 0 calc(0px - var(--column-gap)); }
.segment th, .segment td { box-sizing: border-box; height: var(--cell-height); padding: 0; white-space: nowrap;
  font: 13px/24px ui-monospace, 'DejaVu Sans Mono', Menlo, Consolas, monospace; }
.segment th { min-width: var(--number-width); text-align: right; color: #8a929b; font-weight: 400; }
.segment td { min-width: var(--cell-width); max-width: var(--cell-width); overflow: hidden; text-align: center;
  border-radius: 3px;
  background: var(--fill); border: 1px solid transparent; }
.segment td a { color: inherit; text-decoration: none; }
.segment td a:hover { text-decoration: underline; }
.segment td:target { outline: 3px solid #222; outline-offset: 1px; }
.segment td.free { color: #a3a9b0; background: #fff; border: 1px dashed #d5d9de; }
.segment td.pointer { border-color: var(--line); color: var(--line); font-weight: 700; }
.segment td.root { --fill: #fff; --line: #222; border-width: 2px; line-height: 22px; }
.segment td.tag { border: 1px dashed var(--line); font-style: italic; }
.segment td.landing { border: 3px double var(--line); line-height: 20px; }
.segment td.null { font-weight: 400; opacity: 0.6; }
.segment td.refused { background: #ffdcdc; border-color: #c4001d; color: #c4001d; opacity: 1; }
.segment svg { position: absolute; left: 0; top: 0; width: 1px; height: 1px; overflow: visible; pointer-events: none; }
.segment path { fill: none; stroke: var(--line); stroke-width: 1.6; stroke-linejoin: round; stroke-linecap: round;
  pointer-events: stroke; }
.drawing:has(a:hover, a:focus) path { opacity: 0.15; }
.drawing a:is(:hover, :focus) path { stroke-width: 3.2; opacity: 1; }
.objects { flex: 1 1 280px; min-width: 0; position: sticky; top: 8px; box-sizing: border-box;
  max-height: calc(100vh - 16px); overflow-y: auto;
  margin: 34px 0 0; padding-left: 48px; font: 13px/1.6 ui-monospace, 'DejaVu Sans Mono', Menlo, Consolas, monospace; }
.objects li { margin: 3px 0; padding: 0 8px; width: fit-content; border-left: 4px solid var(--line);
  background: var(--fill); overflow-wrap: anywhere; }
.objects li::marker { color: #8a929b; }
@media (max-width: 1120px) {
  body { margin: 12px 10px 32px; }
  .message { padding: 10px; }
  .objects { position: static; max-height: none; margin-top: 14px; }
}
.c0 { --fill: #dcebfb; --line: #1f6fb8; }
.c1 { --fill: #fde7cf; --line: #b8610b; }
.c2 { --fill: #ddf3dd; --line: #2b8a3e; }
.c3 { --fill: #ece3f8; --line: #7446b5; }
.c4 { --fill: #d6f2f0; --line: #0b8380; }
.c5 { --fill: #fbe0ee; --line: #b93481; }
.c6 { --fill: #f3efc9; --line: #857400; }
.c7 { --fill: #e6e1dc; --line: #7a5a40; }
.c8 { --fill: #e1e6ee; --line: #44546c; }
";

/// What the looks of words mean.
pub const LEGEND: &str = "\
<p class=\"legend\"><span class=\"key-root\">root pointer</span><span class=\"key-pointer\">pointer</span>\
<span class=\"key-null\">null pointer</span><span class=\"key-data\">data</span>\
<span class=\"key-tag\">tag of a list of structs</span><span class=\"key-landing\">landing pad</span>\
<span class=\"key-free\">of no object</span><span class=\"key-refused\">refused pointer</span>\
<br>Each word is shown as its 8 bytes, and each object in a colour. A pointer is a link; hold the mouse on a word to \
read what it is, and on a pointer or its arrow to see that arrow alone.</p>
";
