//! Colours and symbols. Each mark has a shape and a sign of its own beside its colour.

/// The colours, in light and in dark, the symbols and the legend, as a picture has them.
pub const STYLE: &str = "<style>
text { font-family: sans-serif; font-size: 12px; fill: #1f2328; }
.name { text-anchor: end; font-size: 13px; }
.part { text-anchor: end; font-size: 11px; }
.label { font-size: 11px; }
.place { text-anchor: middle; font-size: 11px; }
.process { font-size: 11px; }
.axis { text-anchor: end; font-size: 11px; }
.part, .place, .process, .axis, .key { fill: #59636e; }
.page { fill: #ffffff; }
.column { stroke: #eef1f4; }
.lane { stroke: #c9d1d9; fill: none; }
.granted { fill: #0969b8; }
.refused { fill: #c93c00; }
.waits { fill: #f2b705; stroke: #7a5c00; }
.sign { fill: none; stroke: #ffffff; stroke-width: 2.4; stroke-linecap: round; stroke-linejoin: round; }
.pause { stroke: #3d2e00; }
.bar { fill: none; stroke: #d99a00; stroke-width: 7; stroke-dasharray: 3 2; }
.ends, .clock { fill: none; stroke: #6639ba; stroke-width: 1.8; }
.clock { stroke-dasharray: 4 3; }
.tip { fill: #6639ba; }
.steps { fill: #0969b8; fill-opacity: 0.18; stroke: #0969b8; stroke-width: 1.6; }
@media (prefers-color-scheme: dark) {
text { fill: #e6edf3; }
.part, .place, .process, .axis, .key { fill: #a3adb8; }
.page { fill: #0d1117; }
.column { stroke: #1b222b; }
.lane { stroke: #3d444d; }
.granted { fill: #58b0ff; }
.refused { fill: #ff8a5c; }
.waits { fill: #f2c744; stroke: #f2c744; }
.sign { stroke: #0d1117; }
.pause { stroke: #0d1117; }
.bar { stroke: #d9a514; }
.ends, .clock { stroke: #c4a7ff; }
.tip { fill: #c4a7ff; }
.steps { fill: #58b0ff; stroke: #58b0ff; }
}
</style>
<defs>
<g id='granted'><rect class='granted' x='-11' y='-11' width='22' height='22' rx='4'/><path class='sign' d='M-5 0 L-1 4 L6 -5'/></g>
<g id='refused'><path class='refused' d='M0 -14 L14 0 L0 14 L-14 0 Z'/><path class='sign' d='M-4 -4 L4 4 M4 -4 L-4 4'/></g>
<g id='waits'><circle class='waits' r='11'/><path class='sign pause' d='M-3.5 -4.5 V4.5 M3.5 -4.5 V4.5'/></g>
<marker id='tip' viewBox='0 0 8 8' refX='7' refY='4' markerWidth='8' markerHeight='8' markerUnits='userSpaceOnUse' orient='auto'><path class='tip' d='M0 0 L8 4 L0 8 Z'/></marker>
<pattern id='columns' width='32' height='32' patternUnits='userSpaceOnUse'><path class='column' d='M0 0 V32'/></pattern>
<g id='legend'>
<use href='#granted' x='12' y='0'/><text class='key' x='30' y='4'>granted</text>
<use href='#refused' x='114' y='0'/><text class='key' x='134' y='4'>refused</text>
<use href='#waits' x='212' y='0'/><path class='bar' d='M224 0 H262'/><text class='key' x='270' y='4'>waits</text>
<path class='ends' marker-end='url(#tip)' d='M330 0 H366'/><text class='key' x='374' y='4'>the call that ends a wait</text>
<path class='clock' marker-end='url(#tip)' d='M540 0 H576'/><text class='key' x='584' y='4'>the clock ends it</text>
</g>
</defs>
";
