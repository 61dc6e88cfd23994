//! The script's first half: the picture of a race, and its story in sentences.

/// The functions that draw and tell.
pub(crate) const PICTURE: &[u8] = br#"
"use strict";

// Makes an element with attributes, and puts these in it: texts as text, never as markup.
function make(tag, attributes, ...parts) {
  const isDrawn = make.drawn.has(tag);
  const element = isDrawn ? document.createElementNS("http://www.w3.org/2000/svg", tag) : document.createElement(tag);
  for (const name of Object.keys(attributes)) element.setAttribute(name, attributes[name]);
  for (const part of parts) element.append(part);
  return element;
}
make.drawn = new Set(["svg", "g", "rect", "line", "circle", "text", "title"]);

const did = (kind) => (kind === "write" ? "wrote" : "read");
const isReuse = (race) => race.reuse !== undefined;
const isUnordered = (race) => race.reasons.some((reason) => reason.label === "unordered with");
const listed = (names) => (names.length ? names.join(", ") : "none");
const shortened = (name, most) => (name.length > most ? "\u2026" + name.slice(1 - most) : name);

// The accesses that a race names, in the order of the trace, each with what the report says of it. What is unordered with another access is
// the last of the two.
//
// A lock that is named as not covering a later access covers each access from the joining up to that one, so the candidate set after
// each access is known.
function accessesOf(race) {
  const byLine = new Map();
  const own = isUnordered(race) ? [{ label: "", line: race.line, thread: race.thread, kind: isReuse(race) ? "reuse" : race.kind, calls: race.calls, functions: race.functions }] : [];
  for (const reason of [...race.reasons, ...own]) {
    if (!byLine.has(reason.line)) {
      byLine.set(reason.line, { ...reason, isFirst: false, isJoined: false, isWrite: false, lost: [] });
    }
    const access = byLine.get(reason.line);
    if (reason.label === "first") access.isFirst = true;
    if (reason.label === "joined") access.isJoined = true;
    if (reason.label === "write") access.isWrite = true;
    if (reason.label === "not covering") access.lost.push(reason.lock);
  }
  const accesses = [...byLine.values()].sort((a, b) => a.line - b.line);
  let left = race.reasons.filter((reason) => reason.label === "not covering").map((reason) => reason.lock);
  let isShared = false;
  for (const access of accesses) {
    isShared = isShared || access.isJoined;
    const lost = new Set(access.lost);
    left = left.filter((lock) => !lost.has(lock));
    access.candidates = isShared ? left : null;
    access.isRace = access.line === race.line;
  }
  return accesses;
}

// The locks of a race's picture: those that protected the word for a time, each with the row where that ended, and those held at the race.
// Two accesses that nothing orders have no locks there.
function locksOf(race, accesses) {
  if (isUnordered(race)) return [];
  const joined = accesses.findIndex((access) => access.isJoined), last = accesses.length - 1;
  const locks = new Map();
  accesses.forEach((access, row) => {
    for (const lock of access.lost) locks.set(lock, { name: lock, from: joined, lostAt: row, heldAt: null });
  });
  for (const lock of race.held) {
    if (!locks.has(lock)) locks.set(lock, { name: lock, from: last, lostAt: null, heldAt: last });
    else locks.get(lock).heldAt = last;
  }
  return [...locks.values()];
}

// The picture of a race: a row for each access, a lane for each thread, a bar for each lock while it protects the word, and the candidate sets.
// Between two accesses that nothing orders there is a broken line with a cross at each end instead.
function pictureOf(race) {
  const isBroken = isUnordered(race);
  const accesses = accessesOf(race);
  const locks = locksOf(race, accesses);
  const threads = [...new Set(accesses.map((access) => access.thread))];
  const rowHeight = 38, laneWidth = 118, barWidth = 34, left = 92;
  const top = locks.length ? 96 : 40;
  const locksAt = left + threads.length * laneWidth;
  const textAt = isBroken ? null : locksAt + locks.length * barWidth + 16;
  const longest = accesses.reduce((most, access) => Math.max(most, shortened(listed(access.candidates || []), 40).length), 14);
  const width = isBroken ? Math.max(locksAt, 416) : textAt + 20 + longest * 8, height = top + accesses.length * rowHeight + 8;
  const laneOf = new Map(threads.map((thread, place) => [thread, left + place * laneWidth + 14]));
  const rowAt = (row) => top + row * rowHeight + rowHeight / 2;
  const picture = make("svg", { class: "picture", viewBox: `0 0 ${width} ${height}`, width, height, role: "img" },
    make("title", {}, isBroken ? `The two accesses that nothing orders, on lines ${accesses[0].line} and ${race.line}`
      : `The accesses of ${race.address} up to the race on line ${race.line}, the locks that protected them, and the candidate set after each`));
  accesses.forEach((access, row) => {
    if (access.isRace) picture.append(make("rect", { class: "row-race", x: 0, y: rowAt(row) - rowHeight / 2, width, height: rowHeight }));
    picture.append(make("line", { class: "rule", x1: 0, y1: rowAt(row) + rowHeight / 2, x2: width, y2: rowAt(row) + rowHeight / 2 }));
  });
  for (const thread of threads) {
    const x = laneOf.get(thread);
    picture.append(make("text", { class: "mono head", x: x - 6, y: top - 14 }, make("title", {}, thread), shortened(thread, 13)));
    picture.append(make("line", { class: "lane", x1: x, y1: top - 6, x2: x, y2: height - 8 }));
  }
  picture.append(make("text", { class: "faint", x: 4, y: top - 14 }, "trace"));
  if (!isBroken) picture.append(make("text", { class: "faint", x: textAt, y: top - 14 }, "candidate set"));
  locks.forEach((lock, place) => drawLock(picture, lock, locksAt + place * barWidth + barWidth / 2, top, rowAt, rowHeight));
  accesses.forEach((access, row) => drawAccess(picture, access, laneOf.get(access.thread), rowAt(row), textAt));
  if (isBroken) drawBroken(picture, ...accesses.map((access) => laneOf.get(access.thread)), rowAt(0), rowAt(1));
  return picture;
}

function drawCross(picture, x, y) {
  picture.append(make("line", { class: "cut", x1: x - 5, y1: y - 5, x2: x + 5, y2: y + 5 }));
  picture.append(make("line", { class: "cut", x1: x - 5, y1: y + 5, x2: x + 5, y2: y - 5 }));
}

// A broken line from one access to another, with a cross below the first and one above the other.
function drawBroken(picture, fromX, toX, fromY, toY) {
  const from = fromY + 15, to = toY - 15;
  picture.append(make("line", { class: "broken", x1: fromX, y1: from, x2: toX, y2: to }));
  drawCross(picture, fromX, from);
  drawCross(picture, toX, to);
}

// A bar while the lock protects the word, a cross where it does not, and a dashed bar at a race where it is held and no help.
function drawLock(picture, lock, x, top, rowAt, rowHeight) {
  const place = `translate(${x - 2} ${top - 12}) rotate(-40)`;
  picture.append(make("text", { class: "mono", x: 0, y: 0, transform: place }, make("title", {}, lock.name), shortened(lock.name, 16)));
  if (lock.heldAt !== null) {
    const y = rowAt(lock.heldAt) - 12;
    picture.append(make("rect", { class: "useless", x: x - 8, y, width: 16, height: 24, rx: 3 }, make("title", {}, `${lock.name} is held here, and no help`)));
  }
  if (lock.lostAt === null) return;
  const first = rowAt(lock.from) - rowHeight / 2 + 4, end = rowAt(lock.lostAt);
  if (lock.from < lock.lostAt) picture.append(make("rect", { class: "bar", x: x - 6, y: first, width: 12, height: end - first - 12, rx: 3 }));
  drawCross(picture, x, end);
}

// A dot for an access and a square for a reuse, what it is, and the candidate set after it if there is room for one.
function drawAccess(picture, access, x, y, textAt) {
  picture.append(make("text", { class: "faint", x: 4, y: y + 5 }, `line ${access.line}`));
  if (access.kind === "reuse") picture.append(make("rect", { class: "write", x: x - 6, y: y - 6, width: 12, height: 12 }));
  else picture.append(make("circle", { class: access.kind === "write" ? "write" : "read", cx: x, cy: y, r: 6 }));
  picture.append(make("text", { class: access.isRace ? "alarm" : "", x: x + 12, y: y + 5 }, access.isRace ? `${access.kind}: race` : access.kind));
  if (textAt === null) return;
  let told = "one thread so far";
  if (access.candidates) told = access.candidates.length ? shortened(listed(access.candidates), 40) : "empty";
  const names = access.candidates ? listed(access.candidates) : told;
  picture.append(make("text", { class: access.candidates ? (access.candidates.length ? "mono" : "alarm") : "faint", x: textAt, y: y + 5 }, make("title", {}, names), told));
}

// What the picture shows, in sentences.
function storyOf(race) {
  const accesses = accessesOf(race);
  const story = make("ol", { class: "story" });
  for (const access of accesses) {
    const item = make("li", access.isRace ? { class: "race" } : {}, `Line ${access.line}: `, sentenceOf(access, race));
    const led = ledOf(access);
    if (led.length) item.append(make("ul", { class: "calls" }, ...led));
    story.append(item);
  }
  return story;
}

// The function that an access is in and the calls that led there, as far as they are known.
function ledOf({ calls = [], functions = [] }) {
  const inside = (name, before) => (name ? [before, named(name)] : []);
  const lines = calls.map((call, place) => make("li", {}, "called at ", named(call), ...inside(functions[place + 1], " in ")));
  return functions[0] ? [make("li", {}, ...inside(functions[0], "in ")), ...lines] : lines;
}

// What is known of the word of a race: its variable, or the block that it was in.
function subjectOf({ variable, block }) {
  if (variable) return `${variable.name}${variable.offset ? `+${variable.offset}` : ""}, `;
  return block ? `byte ${block.offset} of a block of ${block.size} bytes${block.site === null ? "" : ` allocated at ${block.site}`}, ` : "";
}

function sentenceOf(access, race) {
  let text = `${access.thread} ${access.kind === "reuse" ? "gave the memory back" : did(access.kind) + " the word"}`;
  if (access.lost.length) text += ` without the protection of ${listed(access.lost)}`;
  if (access.isRace) text += race.held.length ? `, holding ${heldOf(access, race)}` : ", holding no lock";
  else if (access.held) text += placeOf(access);
  text += ".";
  if (access.isFirst) text += " It was the first to use it.";
  if (access.isJoined) text += " It was the second thread to use it: from here on all accesses need a lock in common.";
  if (access.isWrite && !access.isJoined) text += " It is the first write since then.";
  if (isUnordered(race)) return access.isRace ? text + " Nothing orders this after the access above: this is the race." : text;
  if (access.isRace) return text + " No lock protected all accesses since the second thread came: this is the race.";
  if (access.candidates) text += access.candidates.length ? ` Still possible: ${listed(access.candidates)}.` : " No lock is left that protects it.";
  return text;
}

// Where an earlier access stood, and what its thread held.
function placeOf(access) {
  const locks = access.held.map((lock) => (access.held_to_read.includes(lock) ? `${lock} (only to read)` : lock));
  return `${access.site === null ? "" : ` at ${access.site}`}, holding ${locks.join(", ") || "no lock"}`;
}

// A lock that was held at the race and did not protect it was held only to read. At a joining that is so for all of them.
function heldOf(access, race) {
  return race.held.map((lock) => (access.isJoined || access.lost.includes(lock) ? `${lock} (but only to read)` : lock)).join(", ");
}
"#;
