//! The script's second half: the sites, the tables, the filter, and the start.

/// The functions that make the page.
pub(crate) const SCRIPT: &[u8] = br##"
// How many rows of a table are made at once, how many examples are open at first, and how many races of a site are listed.
const ROWS = 500, OPEN = 3, LISTED = 50;

function dataOf(id) {
  return JSON.parse(document.getElementById(id).textContent);
}

const counted = (count, one, many) => `${count.toLocaleString("en")} ${count === 1 ? one : many}`;

// The sites of the races, most words first. Sites with as many words stay in the order of their first races. Reuses without a site stand by their addresses.
function sitesOf(races) {
  const sites = new Map();
  for (const race of races) {
    const name = race.site ?? race.reuse ?? "-";
    let site = sites.get(name);
    if (!site) {
      site = { name, words: 0, kinds: new Set(), threads: new Set(), locks: new Set(), races: [], isReuse: isReuse(race) && race.site === undefined };
      sites.set(name, site);
    }
    site.words += 1;
    site.kinds.add(kindOf(race));
    site.threads.add(race.thread);
    for (const lock of race.held) site.locks.add(lock);
    if (site.races.length < LISTED) site.races.push(race);
  }
  for (const site of sites.values()) site.text = [site.name, ...site.kinds, ...site.threads, ...site.locks].join(" ").toLowerCase();
  return [...sites.values()].sort((a, b) => b.words - a.words);
}

// The parts of the page, one for each report: what is unordered in this run, and then the other sites of races by locks.
function partsOf(reports) {
  const parts = reports.map((report) => ({ report, isOrder: report.analysis === "happens-before", sites: sitesOf(report.races) }));
  parts.sort((a, b) => b.isOrder - a.isOrder);
  if (parts.length > 1) {
    const names = new Set(parts[0].sites.map((site) => site.name));
    parts[1].sites = parts[1].sites.filter((site) => !names.has(site.name));
  }
  parts.flatMap((part) => part.sites).forEach((site, place) => (site.id = `site-${place + 1}`));
  for (const part of parts) {
    const starts = new Map((part.report.threads || []).map((start) => [start.thread, start]));
    const births = new Map((part.report.locks || []).map((birth) => [birth.lock, birth]));
    for (const site of part.sites) Object.assign(site, { isOrder: part.isOrder, starts, births });
  }
  return parts;
}

const kindOf = (race) => (isReuse(race) ? "reuse" : race.kind);
const kindsOf = (site) => ["read", "write", "reuse"].filter((kind) => site.kinds.has(kind)).join(", ");

const named = (name) => make("span", { class: "name" }, name);

// A table of rows that are made as they are asked for: the first ones at once, more by a button.
function tableOf(caption, columns, rows, rowOf) {
  const body = make("tbody", {});
  const head = make("tr", {}, ...columns.map(([name, isNumber]) => make("th", isNumber ? { scope: "col", class: "number" } : { scope: "col" }, name)));
  const table = make("table", {}, make("caption", {}, caption), make("thead", {}, head), body);
  const more = make("button", { type: "button" });
  let made = 0;
  function grow() {
    const end = Math.min(rows.length, made + ROWS);
    while (made < end) body.append(rowOf(rows[made++]));
    more.hidden = made >= rows.length;
    more.textContent = `Show ${Math.min(ROWS, rows.length - made)} more of ${counted(rows.length, "row", "rows")}`;
  }
  more.addEventListener("click", grow);
  grow();
  return make("div", { class: "wide" }, table, more);
}

const cell = (part, isNumber) => make("td", isNumber ? { class: "number" } : {}, part);

function rowOfSite(site) {
  const link = make("a", { href: "#" + site.id, class: "name" }, site.name);
  return make("tr", {}, cell(site.words.toLocaleString("en"), true), cell(kindsOf(site)), cell(site.threads.size, true), cell(site.locks.size, true), cell(link));
}

// The lines of the source around a site, with the site's line marked.
function sourceOf(excerpt) {
  const here = Number((/:(\d+)$/.exec(excerpt.site) || [])[1]);
  const texts = excerpt.text.split("\n");
  if (texts.length > 1 && !texts[texts.length - 1]) texts.pop();
  const lines = texts.map((text, place) => {
    const number = excerpt.line + place;
    return make("span", number === here ? { class: "here" } : {}, make("span", { class: "margin" }, String(number)), text || " ");
  });
  return make("pre", { class: "source", tabindex: "0", "aria-label": `Source lines around ${excerpt.site}` }, ...lines);
}

// An example of a site's races, with the picture, the story and the source lines.
function exampleOf(site, excerpt) {
  const race = site.races[0];
  const body = make("div", { class: "body" });
  const deed = isReuse(race) ? ` gave back ${counted(race.bytes, "byte", "bytes")} at ` : ` ${did(race.kind)} ${subjectOf(race)}the word at `;
  body.append(make("p", {}, named(race.thread), deed, named(addressOf(race)), ` on line ${race.line} of the trace`,
    race.held.length ? ", holding " : ", holding no lock", race.held.length ? named(listed(race.held)) : "",
    site.isOrder ? ", and nothing orders this after an earlier access." : ", and no lock protects it."));
  if (race.reasons.length) {
    body.append(make("h3", {}, site.isOrder ? "What nothing orders" : "How the locks ran out"), make("div", { class: "wide", tabindex: "0", role: "group", "aria-label": "Picture of the race" }, pictureOf(race)), storyOf(race));
  }
  const starts = [...new Set([race, ...race.reasons].map((one) => one.thread))].flatMap((thread) => site.starts.get(thread) || []);
  const births = [...new Set([race, ...race.reasons].flatMap((one) => one.held || []))].flatMap((lock) => site.births.get(lock) || []);
  if (starts.length + births.length) body.append(make("ul", { class: "threads" }, ...starts.map(startOf), ...births.map(birthOf)));
  if (excerpt) body.append(make("h3", {}, "Source"), sourceOf(excerpt));
  body.append(make("h3", {}, "All races here"), make("p", {}, "Threads: ", named(listed([...site.threads])), ". Locks held at some of them: ", named(listed([...site.locks])), "."));
  const caption = site.words > LISTED ? `The first ${LISTED} of ${counted(site.words, "race", "races")}` : counted(site.words, "race", "races");
  body.append(tableOf(caption, [["Line", true], ["Thread"], ["Kind"], ["Word"], ["Locks held"]], site.races, (one) =>
    make("tr", {}, cell(one.line, true), cell(named(one.thread)), cell(kindOf(one)), cell(named(addressOf(one))), cell(named(listed(one.held))))));
  return body;
}

const startOf = ({ thread, name, site }) => make("li", {}, named(thread), name === null ? "" : ` "${name}"`, " was started at ", named(site));
const birthOf = ({ lock, site, created }) => make("li", {}, named(lock), created ? " was created at " : " was first taken at ", named(site));
const addressOf = (race) => (isReuse(race) ? race.reuse : race.address);

// A site's part of the page. What is in it is made when it is opened first.
function partOf(site, excerpts) {
  const summary = make("summary", {}, named(site.name), make("span", { class: "soft" }, ` \u2014 ${site.isReuse ? counted(site.words, "reuse", "reuses") : `${counted(site.words, "word", "words")}, ${kindsOf(site)}`}, ${counted(site.threads.size, "thread", "threads")}`));
  const part = make("details", { id: site.id, class: "site" }, summary);
  part.fill = () => {
    if (!part.isFilled) part.append(exampleOf(site, excerpts.get(site.name)));
    part.isFilled = true;
  };
  part.addEventListener("toggle", () => part.open && part.fill());
  return part;
}

function openPart(part) {
  part.fill();
  part.open = true;
}

// The sites whose names, kinds, threads and locks contain all words of the filter.
function matching(sites, filter) {
  const words = filter.toLowerCase().split(/\s+/).filter((word) => word);
  return sites.filter((site) => words.every((word) => site.text.includes(word)));
}

// What a part of the address says, as it is if its escapes are damaged.
function plainOf(text) {
  try {
    return decodeURIComponent(text);
  } catch {
    return text;
  }
}

// The sites of all parts, under one filter. Each of two parts has a heading and its totals, and says if it has no site.
function sitesSection(parts, excerpts) {
  const sites = parts.flatMap((part) => part.sites);
  const input = make("input", { id: "filter", type: "search", autocomplete: "off", spellcheck: "false" });
  const form = make("form", { role: "search" }, make("label", { for: "filter" }, "Filter by site, kind, thread or lock"), input);
  const status = make("p", { class: "soft", role: "status", id: "matches" });
  const shown = parts.map((part) => ({ part, list: make("div", {}), examples: make("div", {}) }));
  const examples = () => shown.flatMap((one) => [...one.examples.children]);
  function show() {
    const all = matching(sites, input.value);
    status.textContent = `${counted(all.length, "site", "sites")} of ${sites.length.toLocaleString("en")}`;
    for (const { part, list, examples } of shown) {
      const found = matching(part.sites, input.value);
      list.replaceChildren(tableOf("Most words first", [["Words", true], ["Kinds"], ["Threads", true], ["Locks", true], ["Site"]], found, rowOfSite));
      examples.replaceChildren(...found.slice(0, ROWS).map((site) => partOf(site, excerpts)));
      [...examples.children].slice(0, OPEN).forEach(openPart);
    }
  }
  // A link to a site opens its part, and makes the part if it is not among the first.
  function follow() {
    const [, key, value] = /^#(filter=|site-\d+$)(.*)/.exec(location.hash) || [];
    if (key === "filter=") {
      input.value = plainOf(value);
      show();
    } else if (key) {
      const site = sites.find((one) => "#" + one.id === location.hash);
      let part = document.getElementById(key);
      if (!part && site) shown.find((one) => one.part.sites.includes(site)).examples.append((part = partOf(site, excerpts)));
      if (part && part.fill) {
        openPart(part);
        part.scrollIntoView();
        part.firstChild.focus();
      }
    }
  }
  form.addEventListener("submit", (event) => event.preventDefault());
  input.addEventListener("input", show);
  window.addEventListener("hashchange", follow);
  window.addEventListener("beforeprint", () => examples().slice(0, 100).forEach(openPart));
  show();
  const section = make("section", {}, make("h2", {}, "Sites with races"), form, status);
  for (const { part, list, examples } of shown) {
    if (parts.length > 1) section.append(make("h2", {}, part.isOrder ? "Races in this run" : "No common lock"), ...totalsOf(part.report));
    if (part.sites.length) section.append(list, make(parts.length > 1 ? "h3" : "h2", {}, "An example of each"), examples);
    else section.append(make("p", {}, part.isOrder ? "None." : "No further site."));
  }
  return [section, follow];
}

function verdictOf({ report, isOrder, sites }) {
  const { races } = report.totals;
  if (report.stop) return `The replay stopped at line ${report.stop.line}: ${report.stop.why}`;
  if (!races) return isOrder ? "No race in this run" : "No race in this trace";
  const named = sites.filter((site) => !site.isReuse).length, reuses = sites.filter((site) => site.isReuse).length;
  const places = named || !reuses ? [counted(named, "site", "sites")] : [];
  if (reuses) places.push(counted(reuses, "address that was given back", "addresses that were given back"));
  return `${counted(races, "race", "races")}${isOrder ? " in this run" : ""} at ${places.join(" and ")}`;
}

// What is said first: of two parts, the races of the first and the further sites of the other.
function titleOf(parts) {
  const [first, second] = parts;
  if (!second || parts.every((part) => !part.report.totals.races)) return verdictOf(parts[parts.length - 1]);
  const further = second.sites.length ? counted(second.sites.length, "further site", "further sites") : "no further site";
  return `${verdictOf(first)}, ${further} with no common lock`;
}

// What the exit status of the program was, and why.
function exitOf(reports) {
  if (reports.some((report) => report.stop)) return "The exit status is 3, as the replay ran out of room. The report is that of the steps before.";
  return reports.some((report) => report.totals.races) ? "The exit status is 1, as there is a race that no suppression takes." : "The exit status is 0, as there is no race that no suppression takes.";
}

// The totals of a report, and whether the page has all of its races.
function totalsOf(report) {
  const totals = make("dl", { class: "totals" });
  for (const [name, count] of Object.entries(report.totals)) totals.append(make("div", {}, make("dt", {}, name), make("dd", {}, count.toLocaleString("en"))));
  if (report.races.length === report.totals.races) return [totals];
  return [totals, make("p", { class: "notice" }, `This page has the first ${counted(report.races.length, "race", "races")} alone.`)];
}

function headOf(parts) {
  const title = titleOf(parts), reports = parts.map((part) => part.report);
  document.title = `${title} \u2014 eraser`;
  const head = make("header", {}, make("h1", {}, title), make("p", {}, exitOf(reports)));
  const { lost } = reports[0].totals;
  if (lost) head.prepend(make("p", { class: "notice" }, `${counted(lost, "event was", "events were")} lost: this page shows a part of the run.`));
  if (parts.length === 1) head.append(...totalsOf(reports[0]));
  return head;
}

// The refused steps, the words that were shown and the suppressions, each if there are any. The steps are the same in each report.
function restOf(reports) {
  const [report] = reports, parts = [];
  if (report.refused.length) {
    parts.push(make("h2", {}, "Refused steps"), make("p", {}, "These steps can't be: the trace is damaged, or the program did what its locks don't allow. A refused step changes nothing."),
      tableOf(counted(report.refused.length, "refused step", "refused steps"), [["Line", true], ["Thread"], ["Step"], ["Lock"], ["Why"]], report.refused, (one) =>
        make("tr", {}, cell(one.line, true), cell(named(one.thread)), cell(one.event), cell(named(one.lock === null ? "" : one.lock)), cell(one.why))));
  }
  if (report.shown.length) {
    parts.push(make("h2", {}, "Words that were shown"), tableOf(counted(report.shown.length, "word", "words"), [["Line", true], ["Word"], ["State"], ["Owner"], ["Candidates"]], report.shown, (one) =>
      make("tr", {}, cell(one.line, true), cell(named(one.address)), cell(one.state), cell(named(one.owner || "")), cell(named(one.candidates ? listed(one.candidates) : "")))));
  }
  if (report.suppressions.length) {
    const rules = report.suppressions.map((_, place) => [String(place + 1), ...reports.map((one) => one.suppressions[place])]);
    const took = reports.length > 1 ? [["Races by locks that it took", true], ["Races in this run that it took", true]] : [["Races that it took", true]];
    parts.push(make("h2", {}, "Suppressions"), tableOf(counted(rules.length, "rule", "rules"), [["Rule", true], ...took], rules, (counts) =>
      make("tr", {}, ...counts.map((count) => cell(count.toLocaleString("en"), true)))));
  }
  return make("section", {}, ...parts);
}

function guide(parts) {
  const body = make("div", { class: "body" });
  if (parts.some((part) => part.isOrder)) body.append(...guideToOrder());
  if (parts.some((part) => !part.isOrder)) body.append(...guideToLocks());
  return make("details", {}, make("summary", {}, "How to read this page"), body);
}

function guideToOrder() {
  return [
    make("p", {}, "Two accesses of a word race in this run if two threads made them, one of them at least is a write, and nothing orders them: no lock that was released and taken, no start or join of a thread, no signal. Memory that is given back races if nothing orders this after an access."),
    make("p", {}, "In a picture of the two time goes down. A filled dot is a write, a hollow one a read, and a square memory that is given back. The broken line with a cross at each end says that nothing orders them.")];
}

function guideToLocks() {
  return [
    make("p", {}, "A word is 4 bytes of memory. Once a second thread uses it, each access should be made under a lock that all the others are made under too. The candidate set of a word is the locks that can still be this lock: those that protected every access since the second thread came."),
    make("p", {}, "If the set is empty, and the word was written since then, the access is reported as a race. A word is counted once, until its memory gets a new use."),
    make("p", {}, "In a picture time goes down. A filled dot is a write and a hollow one a read. A bar is a lock as long as it protects the word, and a cross is the access that it did not protect. A dashed bar is a lock that was held at the race and is no help: it did not protect an earlier access, or was held only to read.")];
}

function start() {
  // A list of reports, or the only one.
  const reports = [dataOf("report")].flat(), sources = dataOf("sources");
  const excerpts = new Map(sources.map((excerpt) => [excerpt.site, excerpt]));
  const parts = partsOf(reports);
  const page = document.getElementById("page");
  page.append(headOf(parts), guide(parts));
  let follow = () => {};
  if (parts.length > 1 || parts[0].sites.length) {
    const [section, followed] = sitesSection(parts, excerpts);
    page.append(section);
    follow = followed;
  }
  page.append(restOf(reports));
  follow();
  page.dataset.ready = "true";
}

start();
"##;
