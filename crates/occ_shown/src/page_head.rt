//! The beginning of the page that shows a run. `tools/tables.py` writes this file.

pub const HEAD: &str = r##"<!DOCTYPE html>
<html lang="en">
<head>
<meta charset="utf-8">
<meta name="viewport" content="width=device-width, initial-scale=1">
<title>A run, turn by turn</title>
<style>
:root {
  color-scheme: light dark;
  --ground: #ffffff; --ink: #1a1a1a; --soft: #595959; --rule: #c8c8c8; --band: #eef3f8; --now: #fff3c4;
  --ready: #005a8c; --offers: #a34700; --awaits: #7a3a63; --chooses: #5a3d9a; --waits: #555555; --stands: #8c1a1a;
}
@media screen and (prefers-color-scheme: dark) {
  :root {
    --ground: #14171a; --ink: #f0f0f0; --soft: #b4b4b4; --rule: #4a4f55; --band: #20272e; --now: #4a3f10;
    --ready: #6cc0f5; --offers: #f5a35c; --awaits: #e8a6cd; --chooses: #c0a8ff; --waits: #bbbbbb; --stands: #ff9a9a;
  }
}
* { box-sizing: border-box; }
html { font: 16px/1.35 "DejaVu Sans", Verdana, Arial, sans-serif; background: var(--ground); color: var(--ink); }
body { margin: 0; height: 100vh; display: flex; flex-direction: column; }
header { padding: 8px 12px; border-bottom: 1px solid var(--rule); background: var(--ground); }
h1 { font-size: 1.1rem; margin: 0 12px 0 0; display: inline-block; }
h2 { font-size: .95rem; margin: 8px 0 4px; }
#ending { display: inline-block; font-weight: bold; }
#controls { display: flex; align-items: center; gap: 6px; margin: 6px 0; }
#slider { flex: 1 1 80px; min-width: 60px; height: 28px; accent-color: var(--ready); }
#answers { max-width: 100%; min-height: 34px; font: inherit; color: var(--ink); background: var(--band); }
button { font: inherit; min-width: 40px; min-height: 34px; color: var(--ink); background: var(--band); border: 1px solid var(--soft);
  border-radius: 4px; }
:focus-visible { outline: 3px solid var(--ready); outline-offset: 1px; }
#where { white-space: nowrap; font-variant-numeric: tabular-nums; }
#told { margin: 0; min-height: 2.7em; overflow-wrap: anywhere; }
main { flex: 1; min-height: 0; display: grid; grid-template-columns: minmax(0, 9fr) minmax(0, 11fr);
  grid-template-rows: minmax(0, 1fr); gap: 0 16px; padding: 0 12px 8px; }
/* each of the two has as much as it needs up to one half, and what the other leaves free */
#side { min-height: 0; min-width: 0; display: grid; grid-template-columns: minmax(0, 1fr);
  grid-template-rows: minmax(min(50%, var(--table, 0px)), max-content) minmax(min(50%, var(--drawn, 0px)), max-content); }
section { min-height: 0; min-width: 0; display: flex; flex-direction: column; }
.scrolls { overflow: auto; flex: 1 1 auto; min-height: 0; position: relative; }
#lines { margin: 0; padding: 0; list-style: none; font: .95rem/1.4 "DejaVu Sans Mono", Consolas, Menlo, monospace; }
#lines li { display: flex; gap: 8px; padding: 0 2px; }
#lines li.stands { background: var(--band); }
#lines li.now { background: var(--now); }
#lines .number { flex: none; width: 4ch; text-align: right; color: var(--soft); user-select: none; }
#lines .code { white-space: pre-wrap; overflow-wrap: anywhere; flex: 1 1 auto; min-width: 12ch; }
#lines .chips { flex: 0 1 auto; max-width: 45%; text-align: right; }
.chip { display: inline-block; border: 1px solid currentColor; border-radius: 4px; padding: 0 4px; margin: 0 0 1px 3px; font-size: .85rem;
  line-height: 1.25; white-space: nowrap; background: var(--ground); }
.now.chip, tr.now .chip { outline: 2px solid currentColor; }
.ready { color: var(--ready); } .offers { color: var(--offers); } .awaits { color: var(--awaits); } .chooses { color: var(--chooses); }
.waits { color: var(--waits); } .halted, .fault { color: var(--stands); font-weight: bold; }
table { border-collapse: collapse; width: 100%; font-size: .95rem; }
th { text-align: left; white-space: nowrap; font-weight: normal; color: var(--soft); position: sticky; top: 0; background: var(--ground); z-index: 1; }
th, td { padding: 1px 8px 1px 2px; vertical-align: top; border-bottom: 1px solid var(--rule); overflow-wrap: anywhere; }
td:first-child, th:first-child { white-space: nowrap; }
td.line { text-align: right; }
tr.now td { background: var(--now); }
#circle { margin: 2px 0; max-height: 20vh; overflow: auto; overflow-wrap: anywhere; font-weight: bold; color: var(--stands); }
#circle:empty { margin: 0; }
#chart svg { display: block; font: 13px "DejaVu Sans Mono", Consolas, Menlo, monospace; }
#heads { position: sticky; top: 0; background: var(--ground); z-index: 1; border-bottom: 1px solid var(--rule); width: max-content; }
#chart text { fill: var(--ink); }
#chart .label { paint-order: stroke; stroke: var(--ground); stroke-width: 4px; }
#chart .life { stroke: var(--rule); }
#chart .arrow { stroke: currentColor; stroke-width: 1.6; fill: none; }
#chart .head { fill: currentColor; }
#chart .number { fill: var(--soft); text-anchor: end; }
#chart g { cursor: pointer; color: var(--ink); }
#chart g.later { opacity: .45; }
#chart g.made .arrow { stroke-width: 3.5; }
#chart g.made { color: var(--ready); }
#chart g.made .label { font-weight: bold; }
#chart .rule { stroke: var(--stands); stroke-dasharray: 6 4; }
#keys { color: var(--soft); font-size: .85rem; margin: 0; }
@media (max-width: 820px) {
  body { height: auto; display: block; }
  header { position: sticky; top: 0; z-index: 2; max-height: 45vh; overflow: auto; }
  main, #side { display: block; }
  .scrolls { max-height: 50vh; }
  #text .scrolls { max-height: 40vh; }
  #keys { display: none; }
}
@media print {
  :root { color-scheme: light; --ground: #ffffff; --ink: #000000; --soft: #444444; --rule: #999999; --band: #eeeeee; --now: #dddddd; }
  body, main, #side, section { display: block; height: auto; }
  #controls, #keys { display: none; }
  .scrolls, #text .scrolls, #circle { overflow: visible; max-height: none; }
  header, th { position: static; }
  #heads { display: none; }
  #chart svg { max-width: 100%; height: auto; }
  tr, #lines li, .printed { break-inside: avoid; }
  h2 { break-after: avoid; }
}
</style>
</head>
<body>
<header>
<h1>A run, turn by turn</h1><span id="ending"></span> <select id="answers" aria-label="Answer" hidden></select>
<div id="controls" role="group" aria-label="Turns">
<button id="first" aria-label="Before the first turn" title="Before the first turn (Home)">|&#9664;</button>
<button id="back" aria-label="One turn back" title="One turn back (left arrow)">&#9664;</button>
<input id="slider" type="range" min="0" max="0" value="0" aria-label="Turn">
<button id="on" aria-label="One turn on" title="One turn on (right arrow)">&#9654;</button>
<button id="last" aria-label="Behind the last turn" title="Behind the last turn (End)">&#9654;|</button>
<output id="where"></output>
</div>
<p id="told" aria-live="polite"></p>
<p id="circle" aria-live="polite"></p>
<p id="keys">Keys: left and right, a turn; with Shift, to a communication; Home and End. A click on an arrow goes to its turn.</p>
</header>
<main>
<section id="text"><h2>Source</h2><div class="scrolls" tabindex="0" aria-label="Source"><ol id="lines"></ol></div></section>
<div id="side">
<section id="waiting"><h2>Who waits for whom</h2><div class="scrolls" tabindex="0" aria-label="Who waits for whom">
<table><thead><tr><th>Process</th><th>Line</th><th>Stands at</th><th>Waits for</th></tr></thead><tbody id="rows"></tbody></table>
</div></section>
<section id="chart"><h2>Communications</h2><div class="scrolls" id="arrows" tabindex="0" aria-label="Communications"><div id="heads"></div>
<div id="body"></div></div></section>
</div>
</main>
<noscript>This page needs its script to show the run.</noscript>
<script type="text/plain" id="data">"##;
