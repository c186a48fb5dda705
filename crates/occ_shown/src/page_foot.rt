//! The end of the page that shows a run, with its script. `tools/tables.py` writes this file.

pub const FOOT: &str = r##"</script>
<script>
// Shows a run, turn by turn, from the data of the page: the source, the PROC of each process, and of each run a line that is told of it, the
// trace as lines of JSON, the lines of the turns, and the report on the end. Each is a text behind which stands a form feed; a byte below 32
// other than a line feed, `<` and `\` stand in it as `\u` and four digits. A page of a search has the run of each answer.
"use strict";

const $ = (id) => document.getElementById(id);

/** A new element of HTML with this class and this text, within another. */
function add(to, name, kind, text) {
  const made = document.createElement(name);
  if (kind) made.className = kind;
  if (text !== undefined) made.textContent = text;
  to.append(made);
  return made;
}

/** A new element of SVG with these attributes and this text, within another. */
function draw(to, name, attributes, text) {
  const made = document.createElementNS("http://www.w3.org/2000/svg", name);
  for (const [key, value] of Object.entries(attributes)) made.setAttribute(key, value);
  if (text !== undefined) made.textContent = text;
  to.append(made);
  return made;
}

// ---- what is read

/** The lines of a text; each ends with a line feed, but for a last one of a source. */
function linesOf(text) {
  const lines = text.split("\n");
  if (lines[lines.length - 1] === "") lines.pop();
  return lines;
}

/** A text as it was before it was written into the page. */
const plain = (text) => text.replace(/\\u([0-9a-f]{4})/g, (_, digits) => String.fromCharCode(parseInt(digits, 16)));

const [source, names, ...texts] = $("data").textContent.split("\f").map(plain).map(linesOf);
const runs = [];
for (let place = 0; place + 4 < texts.length; place += 4) runs.push(texts.slice(place, place + 4));
/** Whether the line of an answer tells a fault, or a stop that is not idle. */
const isWrong = (head) => /^\d+ (fault|stopped)\b/.test(head) && !/^\d+ stopped .*: idle$/.test(head);

/** The number of the run that the address names, from 0: `page.html#2.12` is turn 12 of the second one. Without a `#` it is the first
    that went wrong, if one did. */
function runAsked() {
  if (!location.hash) return Math.max(0, runs.findIndex(([head]) => isWrong(head[0] || "")));
  return Math.max(0, Math.min(runs.length - 1, (/^#(\d+)\./.exec(location.hash)?.[1] || 1) - 1));
}

const chosen = runAsked();
const [, trace, turnLines, report] = runs[chosen] || [[], ['{"ending":"no run ends"}'], [], []];
const made = trace.map((line) => JSON.parse(line));
const ending = made.pop().ending;

/** A turn by its line: `3 ready p1 took p1 pick 0 line 12: offers 97 'a' on link, 1 p1>p2 link 97 'a'`. */
function readTurn(line) {
  const [, number, ready, taken, pick, at, rest] = /^(\d+) ready((?: p\d+)*) took (p\d+) pick (\d+) (?:line (\d+): )?(.*)$/.exec(line);
  const turn = { number: +number, ready: ready.split(" ").slice(1), taken, pick, line: at ? +at : null, stop: rest, first: count };
  let from = 0;
  for (; count < made.length; count++) {
    const entry = made[count];
    const mark = `, ${entry.number} ${entry.sender}>${entry.receiver} `;
    const place = rest.indexOf(mark, from);
    if (place < 0) break;
    if (from === 0) turn.stop = rest.slice(0, place);
    else made[count - 1].words = rest.slice(from, place);
    from = place + mark.length;
    entry.words = rest.slice(from);
    entry.turn = turn.number;
  }
  return turn;
}

let count = 0;
const turns = turnLines.map(readTurn);
const last = turns.length;

/** Whether the run ends because no process can go on. */
const isStop = report.some((line) => / no process can go on:$/.test(line));
/** What is told of each process at the end: all but those that have ended. */
const atEnd = new Map();
let circle = [];
for (const line of report) {
  const process = /^  (p\d+)(?: (.*?))?(?:, line (\d+))?: (.*)$/.exec(line);
  const round = /^  in a circle, each waits for the next: (.*)$/.exec(line);
  if (round) circle = round[1].split(" ");
  else if (process) atEnd.set(process[1], { line: process[3] ? +process[3] : null, stop: process[4] });
}

// ---- what is known of each process

/** What a process has come to, by the turn from which on it stands there. */
const stands = new Map([["p0", [{ turn: 0, kind: "ready", line: null, stop: "can go on" }]]]);
/** The communications of each end, by their places. */
const communications = new Map();

const KINDS = { can: "ready", offers: "offers", awaits: "awaits", chooses: "chooses", waits: "waits", halted: "halted", ends: "ended" };

/** The kind of a stop. */
function kindOf(stop) {
  const word = /^\w+/.exec(stop)[0];
  return KINDS[word] || "fault";
}

function standsFrom(process, event) {
  if (!stands.has(process)) stands.set(process, []);
  stands.get(process).push(event);
}

for (const turn of turns) {
  const events = stands.get(turn.taken);
  const told = /^fault \w+ line (\d+)/.exec(turn.stop);
  const line = turn.line ?? (told ? +told[1] : events[events.length - 1].line);
  standsFrom(turn.taken, { turn: turn.number, kind: kindOf(turn.stop), line, stop: turn.stop });
  if (turn.stop.startsWith("waits for ")) {
    for (const branch of turn.stop.split(" ").slice(2)) standsFrom(branch, { turn: turn.number, kind: "ready", line, stop: "can go on" });
  }
}
made.forEach((entry, place) => {
  for (const end of new Set([entry.sender, entry.receiver])) {
    if (!communications.has(end)) communications.set(end, []);
    communications.get(end).push(place);
  }
});

/** How many of the items of a sorted list a test holds of: it holds of a beginning. */
function countWhere(list, test) {
  let low = 0, high = list.length;
  while (low < high) {
    const middle = (low + high) >> 1;
    if (test(list[middle])) low = middle + 1;
    else high = middle;
  }
  return low;
}

/** How many processes have begun and not ended, at most. */
function mostStanding() {
  const changes = new Array(last + 1).fill(0);
  for (const events of stands.values()) {
    changes[events[0].turn]++;
    if (events.at(-1).kind === "ended") changes[events.at(-1).turn]--;
  }
  let most = 0, standing = 0;
  for (const change of changes) most = Math.max(most, (standing += change));
  return most;
}

/** How many communications were made behind so many turns. */
const madeBy = (at) => (at === 0 ? 0 : at < last ? turns[at].first : made.length);

/** Which processes may take the next turn behind so many turns. */
function readyAt(at) {
  if (at < last) return new Set(turns[at].ready);
  return new Set([...atEnd].filter(([, end]) => end.stop === "can go on").map(([process]) => process));
}

/** What each process that has begun and not ended stands at behind so many turns. */
function standing(at) {
  const ready = readyAt(at);
  const found = [];
  for (const [process, events] of stands) {
    const number = countWhere(events, (event) => event.turn <= at);
    const event = events[number - 1];
    if (!event || (event.kind === "ended" && !ready.has(process))) continue;
    const state = ready.has(process) ? { ...event, kind: "ready", stop: "can go on" } : event;
    found.push({ process, ...state, since: event.turn });
  }
  found.sort((one, other) => one.process.slice(1) - other.process.slice(1));
  const here = new Set(found.map((one) => one.process));
  for (const one of found) one.other = othersOf(one, at, here);
  return found;
}

/** For whom a process waits behind so many turns: for its branches, for the one that it communicates with next, or, where it never does
    in this run, for whoever the report on the end names. */
function othersOf(one, at, here) {
  if (one.kind === "waits") return one.stop.split(" ").slice(2).filter((branch) => here.has(branch)).join(" ");
  if (!["offers", "awaits", "chooses"].includes(one.kind)) return "";
  const places = communications.get(one.process) || [];
  const next = made[places[countWhere(places, (place) => place < madeBy(at))]];
  if (next) return `${next.sender === one.process ? next.receiver : next.sender}, until turn ${next.turn}`;
  const told = atEnd.get(one.process);
  const long = isStop ? "for ever" : "to the end of the run";
  const ends = told ? [...told.stop.matchAll(/, which (p\d+) (?:reads|writes)/g)].map((end) => end[1]) : [];
  if (ends.length) return `${[...new Set(ends)].join(" ")}, ${long}`;
  return told && told.stop.includes("used up") ? "keyboard, used up" : `nobody, ${long}`;
}

/** From which turn on the processes in a circle stand where they stand at the end. */
const circleFrom = Math.max(0, ...circle.map((process) => (stands.get(process) || []).at(-1)?.turn ?? last));

/** A process with the name of its PROC. */
function called(end) {
  const name = /^p\d+$/.test(end) ? names[end.slice(1)] : "";
  return name ? `${end} ${name}` : end;
}

// ---- what is shown

const SIGNS = { ready: "\u25b6", offers: "!", awaits: "?", chooses: "ALT", waits: "PAR", halted: "\u25a0", fault: "\u00d7" };
const MOST_ROWS = 400;
const ROW = 34, LETTER = 7.85, MOST_LETTERS = 36;
const GUTTER = Math.max(4, String(made.length).length + 1) * LETTER;
let now = 0;
let shown = [];

const code = source.map((line, place) => {
  const row = add($("lines"), "li");
  add(row, "span", "number", place + 1);
  add(row, "span", "code", line);
  return { row, chips: add(row, "span", "chips") };
});
let marked = [];

/** A mark with the number of a process and what it stands at. */
function chip(to, one) {
  const made = add(to, "span", `chip ${one.kind}`, `${one.process} ${SIGNS[one.kind]}`);
  made.title = `${called(one.process)}: ${one.stop}`;
  return made;
}

function showSource(taken) {
  for (const row of marked) {
    row.row.className = "";
    row.chips.replaceChildren();
  }
  marked = [];
  let current = null;
  for (const one of shown) {
    const row = code[one.line - 1];
    if (!row) continue;
    if (!row.row.className) marked.push(row);
    if (one.process === taken) current = row;
    row.row.className = row === current ? "now" : row.row.className || "stands";
    chip(row.chips, one).classList.toggle("now", one.process === taken);
  }
  const box = $("text").querySelector(".scrolls");
  if (current && box.scrollHeight > box.clientHeight + 1) reveal(box, current.row.offsetTop, current.row.offsetHeight, 60);
}

/** Scrolls the chart so that both ends of the communications that were just made can be seen, if they can. */
function revealEnds(from, to) {
  const box = $("arrows");
  for (const entry of made.slice(from, to)) {
    const ends = [middles.get(entry.sender), middles.get(entry.receiver)];
    const left = Math.min(...ends) - 60, right = Math.max(...ends) + 60;
    if (right > box.scrollLeft + box.clientWidth) box.scrollLeft = right - box.clientWidth;
    if (left < box.scrollLeft) box.scrollLeft = left;
  }
}

/** Scrolls a box so that this much of it can be seen. */
function reveal(box, top, height, margin) {
  if (top - margin < box.scrollTop) box.scrollTop = top - margin;
  else if (top + height + margin > box.scrollTop + box.clientHeight) box.scrollTop = top + height + margin - box.clientHeight;
}

function showRows(taken) {
  const rows = document.createDocumentFragment();
  for (const one of shown.slice(0, MOST_ROWS)) {
    const row = add(rows, "tr", one.process === taken ? "now" : "");
    chip(add(row, "td"), one).after(` ${names[one.process.slice(1)] || ""}`);
    add(row, "td", "line", one.line ?? "");
    add(row, "td", one.kind, one.stop);
    add(row, "td", "", one.other);
  }
  if (shown.length > MOST_ROWS) add(add(rows, "tr"), "td", "", `and ${shown.length - MOST_ROWS} more`).colSpan = 4;
  $("rows").replaceChildren(rows);
  const row = $("rows").querySelector("tr.now");
  if (row) reveal($("waiting").querySelector(".scrolls"), row.offsetTop, row.offsetHeight, 30);
}

/** Says above all that scrolls that the run stops here, and which processes wait in a circle. */
function showCircle() {
  const parts = [];
  if (isStop && now === last) parts.push("The run stops: no process can go on.");
  if (circle.length && now >= circleFrom) parts.push(`A circle waits: ${circle.join(" \u2192 ")} \u2192 ${circle[0]}`);
  $("circle").textContent = parts.join(" ");
}

// ---- the chart

const RANKS = { keyboard: -1, screen: 1e9, error: 1e9 + 1 };
const rankOf = (end) => RANKS[end] ?? +end.slice(1);
const wordsOf = (entry) => entry.words || entry.name;
const namedBy = (end) => (/^p\d/.test(end) && names[end.slice(1)]) || "";
let columns, width;
const middles = new Map();
/** Places a column for each end of these communications, with room for their words between columns. */
function placeColumns(entries) {
  const rooms = new Map(entries.flatMap((entry) => [[entry.sender, new Map()], [entry.receiver, new Map()]]));
  columns = [...rooms.keys()].sort((one, other) => rankOf(one) - rankOf(other));
  for (const entry of entries) {
    const [left, right] = [entry.sender, entry.receiver].sort((one, other) => rankOf(one) - rankOf(other));
    const room = Math.min(MOST_LETTERS, wordsOf(entry).length) * LETTER + 24;
    rooms.get(right).set(left, Math.max(room, rooms.get(right).get(left) ?? 0));
  }
  width = GUTTER;
  for (const end of columns) {
    const own = Math.max(72, Math.min(18, Math.max(end.length, namedBy(end).length)) * LETTER + 14);
    const middle = Math.max(width + own / 2, ...[...rooms.get(end)].map(([left, room]) => middles.get(left) + room));
    middles.set(end, middle);
    width = middle + own / 2;
  }
  width += 8;
}
const cut = (text, most) => (text.length > most ? `${text.slice(0, Math.max(1, most - 1))}\u2026` : text);

function showHeads(part) {
  const svg = draw(part, "svg", { width, height: 40, viewBox: `0 0 ${width} 40` });
  for (const end of columns) {
    const head = draw(svg, "text", { x: middles.get(end), y: 15, "text-anchor": "middle", "font-weight": "bold" }, end);
    draw(svg, "text", { x: middles.get(end), y: 33, "text-anchor": "middle" }, cut(namedBy(end), 18));
    draw(head, "title", {}, called(end));
  }
}

/** The height of the chart above this place. */
const heightTo = (place) => Math.min(place, made.length) * ROW + 44;

/** The arrow of a communication. */
function arrow(svg, place, done, current) {
  const entry = made[place];
  const y = place * ROW + 26;
  const kind = current ? "made" : place < done ? "" : "later";
  const group = draw(svg, "g", { class: kind, "data-turn": entry.turn });
  const from = middles.get(entry.sender), to = middles.get(entry.receiver);
  const side = to < from ? -1 : 1;
  draw(group, "rect", { x: 0, y: y - 22, width, height: ROW, fill: "transparent" });
  draw(group, "text", { class: "number", x: GUTTER - LETTER, y: y + 4 }, entry.number);
  draw(group, "path", { class: "arrow", d: `M${from} ${y}H${to - side * 6}` });
  draw(group, "path", { class: "head", d: `M${to} ${y}l${-side * 10} -5v10z` });
  const words = cut(wordsOf(entry), Math.floor((side * (to - from) - 20) / LETTER));
  draw(group, "text", { class: "label", x: (from + to) / 2, y: y - 6, "text-anchor": "middle" }, words);
  draw(group, "title", {}, `${entry.number}: ${called(entry.sender)} > ${called(entry.receiver)}, ${entry.words}, turn ${entry.turn}`);
}

/** A picture of the communications from one place to another. */
function arrows(from, to) {
  const svg = draw(document.createDocumentFragment(), "svg", { width, height: heightTo(made.length) });
  const done = madeBy(now), before = now ? madeBy(now - 1) : 0;
  const top = Math.max(0, from - 1) * ROW, bottom = heightTo(to);
  for (const end of columns) draw(svg, "path", { class: "life", d: `M${middles.get(end)} ${top}V${bottom}` });
  for (let place = from; place < Math.min(to, made.length); place++) arrow(svg, place, done, place >= before && place < done);
  const y = done * ROW + 3;
  draw(svg, "path", { class: "rule", d: `M0 ${y}H${width}` });
  return svg;
}

/** Draws those that can be seen: none of which a part stands under the heads. */
function showChart() {
  const box = $("arrows");
  const from = Math.max(0, Math.ceil((box.scrollTop - 8) / ROW));
  $("body").replaceChildren(arrows(from, from + Math.ceil(box.clientHeight / ROW) + 10));
}

// ---- going through the turns

/** Says what happened in the last turn. */
function tell(turn) {
  if (!turn) return `Before the first turn. ${last} turns and ${made.length} communications follow.`;
  const who = turn.ready.length === 1 ? "the only one ready" : `one of ${turn.ready.length} ready`;
  const goesOn = turn.stop === "can go on";
  const at = turn.line && !goesOn ? `stops at line ${turn.line}: ` : turn.stop.startsWith("fault") ? "meets a " : "";
  const where = turn.line && goesOn ? `, at line ${turn.line}` : "";
  const told = (entry) => ` Communication ${entry.number}: ${entry.sender} > ${entry.receiver}, ${entry.words}.`;
  const parts = made.slice(turn.first, madeBy(turn.number)).map(told);
  return `Turn ${turn.number}: ${called(turn.taken)}, ${who}. It ${at}${turn.stop}${where}.${parts.join("")}`;
}

/** Shows the run behind so many turns. */
function go(at) {
  now = Math.max(0, Math.min(last, at || 0));
  const turn = turns[now - 1];
  shown = standing(now);
  $("slider").value = now;
  $("slider").setAttribute("aria-valuetext", `turn ${now} of ${last}`);
  $("where").textContent = `${now} of ${last}`;
  $("told").textContent = tell(turn);
  showCircle();
  showSource(turn?.taken);
  showRows(turn?.taken);
  reveal($("arrows"), Math.max(0, madeBy(now) - 3) * ROW, 5 * ROW + 60, 0);
  revealEnds(now ? madeBy(now - 1) : 0, madeBy(now));
  showChart();
}

/** The turn of the next communication behind this one, or of the one before it. */
function toCommunication(step) {
  const done = madeBy(now);
  if (step > 0) return made[done]?.turn ?? last;
  const before = countWhere(made, (entry) => entry.turn < now);
  return before ? made[before - 1].turn : 0;
}

const KEYS = {
  ArrowLeft: (event) => (event.shiftKey ? toCommunication(-1) : now - 1),
  ArrowRight: (event) => (event.shiftKey ? toCommunication(1) : now + 1),
  Home: () => 0,
  End: () => last,
};
document.addEventListener("keydown", (event) => {
  const key = KEYS[event.key];
  if (!key || event.target === $("answers") || event.ctrlKey || event.altKey || event.metaKey) return;
  event.preventDefault();
  go(key(event));
});
$("slider").max = last;
$("slider").addEventListener("input", () => go(+$("slider").value));
$("first").addEventListener("click", () => go(0));
$("back").addEventListener("click", () => go(now - 1));
$("on").addEventListener("click", () => go(now + 1));
$("last").addEventListener("click", () => go(last));
$("arrows").addEventListener("scroll", showChart);
$("body").addEventListener("click", (event) => {
  const group = event.target.closest("g");
  if (group) go(+group.dataset.turn);
});
addEventListener("resize", showChart);
/** The turn that the address names. */
const turnAsked = () => +(/(\d+)$/.exec(location.hash)?.[1] || 0);
addEventListener("hashchange", () => (runAsked() === chosen ? go(turnAsked()) : location.reload()));
if (runs.length > 1) {
  runs.forEach(([head], place) => (add($("answers"), "option", "", head[0]).value = place));
  const more = runs[0][0][1];
  if (more) add($("answers"), "option", "", more).disabled = true;
  $("answers").value = chosen;
  $("answers").hidden = false;
  $("answers").addEventListener("change", () => (location.hash = `${+$("answers").value + 1}.0`));
}
/** A part of the printed chart, with the columns that it needs, under their heads. */
function printed(from, to) {
  placeColumns(made.slice(from, to));
  const part = add(document.createDocumentFragment(), "div", "printed");
  showHeads(part);
  const svg = arrows(from, to), height = (to - from) * ROW + 14;
  svg.setAttribute("viewBox", `0 ${from * ROW} ${width} ${height}`);
  svg.setAttribute("height", height);
  part.append(svg);
  return part;
}

// the printed chart has what surrounds this turn
addEventListener("beforeprint", () => {
  const from = Math.max(0, madeBy(now) - 40), to = Math.min(made.length, from + 60);
  $("body").replaceChildren();
  for (let place = from; place < to; place += 20) $("body").append(printed(place, Math.min(to, place + 20)));
  $("body").style.height = "auto";
});
addEventListener("afterprint", () => {
  placeColumns(made);
  $("body").style.height = `${heightTo(made.length)}px`;
  showChart();
});
$("ending").textContent = `${ending}, ${made.length} communications`;
$("body").style.height = `${heightTo(made.length)}px`;
// what table and chart need, so that neither moves from turn to turn
$("side").style.setProperty("--table", `${(mostStanding() + 1) * 26 + 34}px`);
$("side").style.setProperty("--drawn", `${heightTo(made.length) + 92}px`);
placeColumns(made);
showHeads($("heads"));
go(turnAsked());
</script>
</body>
</html>
"##;
