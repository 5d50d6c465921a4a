//! The script of the page, its first part: it asks the service by the lines of a session, and shows what they show.

pub(crate) const SCRIPT: &str = r##"<script>
"use strict";

// What the letters of flagged statements and of LINK lines mean (docs/LANGUAGE.md).
const LETTERS = {
  A: "something is out of range: a number, a step of an expression, a value or an item for its field, a count, an address, or a statement for its block",
  C: "a comma card that continues nothing: it follows a comment, or nine comma cards",
  D: "the symbol has an earlier definition, and that one counts",
  L: "bad location field: neither a symbol nor + nor -; no symbol at an EQU; - at a VFD",
  O: "the operation is unknown, of the other kind of deck, or not allowed at this spot; a location field without an operation; a USE with a slash that names no common block, or of a 65th block",
  R: "a relative value where none may be, or one that is relative to the wrong thing; or a sum that is relative to more than one thing at its end",
  U: "the symbol has no definition, or, in BSS, BSSZ, ORG, LOC, EQU, none on an earlier statement",
  V: "the variable field is not one that the statement has",
  Z: "division by zero",
};
const LINKS = {
  D: "an earlier deck has this entry already",
  U: "no deck has an entry for this external",
  A: "a field does not fit once it is linked, and is 0; the address is that of the word where it starts",
  F: "it does not fit into memory",
};
const STATES = { READY: "ready", BEHIND: "behind", OUT: "being assembled" };
const PERIOD = 500, TRIES = 5, MOST_HITS = 200, MOST_EDITS = 500, MOST_NAMES = 50, PART = 100, LINE = 1.4;

const $ = id => document.getElementById(id);
const sleep = time => new Promise(done => setTimeout(done, time));

// ---- What is asked, and shown.

// Sends commands of a session, with the lines that belong to them; gives a reply for each: its words, and the lines behind it.
async function ask(...commands) {
  const answer = await fetch("/session", { method: "POST", headers: { "Content-Type": "text/plain" }, body: commands.join("\n") + "\n", cache: "no-store" });
  if (!answer.ok) throw new Error(`status ${answer.status}`);
  const told = (await answer.text()).split("\n");
  let at = 0;
  return commands.map(() => {
    if (at >= told.length - 1) throw new Error("a reply is missing");
    const words = told[at++].split(" ");
    const count = words[0] === "OK" && words.length > 2 ? Number(words[2]) : 0;
    const rows = told.slice(at, at + count);
    at += count;
    const is_unkept = words[0] === "UNKEPT";
    return { ok: words[0] === "OK" || is_unkept, is_unkept, version: Number(words[1]), words, rows };
  });
}

// What STATUS FILES shows.
function status_of(reply) {
  const [, published] = reply.rows[0].split(" ");
  const decks = reply.rows.slice(1).map(row => {
    const [name, version, cards, state, file] = row.split(" ");
    return { name, version: Number(version), cards: Number(cards), state, is_saved: file === "SAVED" };
  });
  return { version: reply.version, published: published === "NONE" ? null : Number(published), decks };
}

// The listing of a deck: what its cards are, with their code and letters.
function listing_of(rows) {
  const cards = [];
  let base = "", behind = 0, first = null;
  for (const row of rows) {
    if (/^\d{5} ?/.test(row)) {
      const text = row.slice(6);
      const follows = text.startsWith(",") && first !== null && !base.startsWith("*") && behind < 9;
      if (!follows) first = cards.length;
      cards.push({ text, code: [], letters: "", said: "", first });
      if (!text.startsWith(",")) { base = text; behind = 0; } else behind++;
    } else if (row.startsWith("  ERR ")) {
      for (const card of cards.slice(first)) card.letters = row.slice(6);
    } else if (row.startsWith("  ") && cards.length) {
      cards[cards.length - 1].code.push(row.slice(2));
    }
  }
  const head = rows.length ? rows[0].split(" ") : [];
  return { kind: head[2] || "", cards, blocks: rows.filter(row => row.startsWith("BLOCK ")) };
}

// Puts what ERRORS name WORDS says of each flagged statement to its cards, a line for each letter.
function put_said(cards, rows) {
  for (const row of rows) {
    const [, number, column, letter, words] = /^WORDS \S+ (\d+) (\d+) (.) (.*)$/.exec(row) || [], card = cards[number - 1];
    if (!card) continue;
    const text = `${letter}: ${words} (card ${number}, column ${column})`;
    for (let n = card.first; cards[n] && cards[n].first === card.first; n++) cards[n].said += (cards[n].said && "\n") + text;
  }
}

// How many statements of each deck are flagged, of what ERRORS shows.
function counts_of(rows) {
  const counts = new Map();
  for (const row of rows) {
    const [kind, name] = row.split(" ");
    if (kind === "ERR") counts.set(name, (counts.get(name) || 0) + 1);
  }
  return counts;
}

// ---- What is the same.

// Of each new line, which old line it is, or -1, so that as many as can be are the same (the least edits, by Myers);
// where that takes more than so many edits, all between the lines that are the same in front and behind are new.
function same_lines(old, now) {
  const from = new Array(now.length).fill(-1);
  let front = 0, last = old.length, end = now.length;
  for (; front < last && front < end && old[front] === now[front]; front++) from[front] = front;
  while (last > front && end > front && old[last - 1] === now[end - 1]) from[--end] = --last;
  const steps = [], reach = new Int32Array(2 * MOST_EDITS + 3), middle = MOST_EDITS + 1;
  const goes_down = (reach, edits, k) => k === -edits || (k !== edits && reach[middle + k - 1] < reach[middle + k + 1]);
  for (let edits = 0; edits <= MOST_EDITS; edits++) {
    steps.push(reach.slice());
    for (let k = -edits; k <= edits; k += 2) {
      let a = front + (goes_down(reach, edits, k) ? reach[middle + k + 1] : reach[middle + k - 1] + 1), b = a - k;
      while (a < last && b < end && old[a] === now[b]) a++, b++;
      reach[middle + k] = a - front;
      if (a >= last && b >= end) return walk_back(from, steps, front, a, b, goes_down);
    }
  }
  return from;
}

// Notes what stayed on the way back from the end of both texts, edit by edit.
function walk_back(from, steps, front, a, b, goes_down) {
  const middle = MOST_EDITS + 1;
  for (let edits = steps.length - 1; edits >= 0; edits--) {
    const reach = steps[edits], k = a - b, down = goes_down(reach, edits, k);
    const before = edits ? front + (down ? reach[middle + k + 1] : reach[middle + k - 1]) : front;
    const start = edits ? before + (down ? 0 : 1) : front;
    while (a > start) from[--b] = --a;
    if (down) b--; else a = before;
  }
  return from;
}

// Where an old line stands now, or what stands in its place.
function place_of(from, old) {
  const kept = from.indexOf(old);
  if (kept >= 0) return kept;
  let before = -1, behind = from.length;
  from.forEach((was, n) => {
    if (was >= 0 && was < old) before = n;
    else if (was > old && n < behind) behind = n;
  });
  const gap = old - (before < 0 ? -1 : from[before]);
  return Math.max(0, Math.min(before + gap, behind, from.length - 1));
}

// ---- What is shown.

let system = { version: 0, published: null, decks: [] };
let shown = { deck: null, published: null, version: null, cards: [], image: [], map: [], items: [], symbols: null };
let chosen = null;
let entered = null;
let flagged = new Map();

// An element with a class and a text.
function made(tag, kind, text) {
  const element = document.createElement(tag);
  if (kind) element.className = kind;
  if (text !== undefined) element.textContent = text;
  return element;
}

function show_decks() {
  const rows = system.decks.map(deck => {
    const item = made("li"), link = made("a");
    link.href = `#${deck.name}`;
    if (deck.name === chosen) link.setAttribute("aria-current", "true");
    link.append(made("b", "", deck.name));
    const count = flagged.get(deck.name);
    const cards = deck.cards === 1 ? "1 card" : `${deck.cards} cards`;
    const about = made("small", "", `${STATES[deck.state] || deck.state}, version ${deck.version}, ${cards}${deck.is_saved ? "" : ", not saved"}`);
    if (count) about.append(", ", made("span", "flags", `${count} flagged`));
    link.append(about);
    item.append(link);
    return item;
  });
  if (!rows.length) rows.push(made("li", "faint", "There is no deck yet. Make one below, or by a session: PUT, or LOAD."));
  $("decks").replaceChildren(...rows);
}

function show_told() {
  const deck = system.decks.find(deck => deck.name === chosen);
  const parts = [system.published === null ? "Nothing is published yet." : `Published: version ${shown.published ?? system.published}.`];
  if (deck && shown.deck === chosen && shown.version !== null) parts.push(`Deck ${chosen}: version ${shown.version}.`);
  if (system.version !== shown.published) parts.push(`The desk is at version ${system.version}.`);
  const told = parts.join(" ");
  if ($("told").textContent !== told) $("told").textContent = told;
}

// The symbols that the cards of a deck define, each with the first card that does; and what it takes of others.
function symbols_of(cards) {
  const defined = new Map(), external = new Set();
  cards.forEach((card, number) => {
    if (/^[*,]/.test(card.text)) return;
    const [place, operation, variable] = fields_of(card.text);
    if (place.text && !/^[+-]$/.test(place.text) && !defined.has(place.text)) defined.set(place.text, number);
    if (operation.text === "EXT") for (const name of variable.text.split(",")) external.add(name);
  });
  return { defined, external };
}

// Location, operation and variable field of a card, each with where it begins.
function fields_of(card) {
  const text = card.slice(0, 72), none = { text: "", at: 0 };
  const place = /^ ?([^ ]+)/.exec(text);
  const behind = place ? place[0].length : 0;
  const run = from => {
    const found = /^( *)([^ ]+)/.exec(text.slice(from));
    if (!found || from + found[1].length > 28) return none;
    return { text: found[2], at: from + found[1].length };
  };
  const operation = run(behind);
  const variable = operation.text ? run(operation.at + operation.text.length) : none;
  return [place ? { text: place[1], at: behind - place[1].length } : none, operation, variable];
}

// The text of a card, with a link at each symbol of its variable field.
function text_with_links(card, symbols) {
  const element = made("span", "text"), text = card.text;
  let last = 0;
  if (!/^[*,]/.test(text)) {
    const [, operation, variable] = fields_of(text);
    const word = /[A-Z.#\[\]%"_!&'?<>@\\$=0-9]+/g;
    for (let found; operation.text !== "DIS" && (found = word.exec(variable.text)); ) {
      const name = found[0].replace(/^=/, ""), at = variable.at + found.index + found[0].length - name.length;
      if (!symbols.defined.has(name) && !symbols.external.has(name)) continue;
      const link = made("a", "", name);
      link.dataset.symbol = name;
      link.setAttribute("role", "link");
      link.tabIndex = -1;
      element.append(text.slice(last, at), link);
      last = at + name.length;
    }
  }
  element.append(text.slice(last) || (last ? "" : " "));
  return element;
}

// What the letters of a flagged statement mean, a line each.
const meaning_of = letters => [...letters].map(letter => `${letter}: ${LETTERS[letter] || "?"}`).join("\n");

// What is said of it; what its letters mean where nothing is.
const said_of = card => card.said || meaning_of(card.letters);

function fill_card(item, card, symbols) {
  const letters = made("span", "letters", card.letters), meaning = said_of(card);
  item.classList.toggle("flagged", meaning !== "");
  item.title = meaning;
  if (meaning) letters.setAttribute("aria-label", `flagged ${meaning}`);
  item.replaceChildren(letters, made("span", "code", card.code.join("\n")), text_with_links(card, symbols));
}

// A card with its mark: what is new, or has other code; and where cards went away in front of it.
function mark_card(item, card, was, cut) {
  const same = was && card.letters === was.letters && card.code.join("\n") === was.code.join("\n");
  item.classList.toggle("new", !was);
  item.classList.toggle("new-code", Boolean(was) && !same);
  item.classList.toggle("cut", cut);
  return same;
}

// Shows the cards of a deck from nothing.
function show_deck(cards, symbols) {
  leave();
  shown.items = cards.map(card => {
    const item = made("li");
    fill_card(item, card, symbols);
    item.tabIndex = -1;
    return item;
  });
  const parts = [];
  for (let first = 0; first < shown.items.length; first += PART) parts.push(part_of(shown.items.slice(first, first + PART)));
  $("cards").replaceChildren(...parts);
  measure_parts(cards);
}

// A list of some of the cards: one that is not in sight is not laid out.
function part_of(items) {
  const part = made("ol", "part");
  part.append(...items);
  return part;
}

// Splits a list that has become twice as long.
function split_part(part) {
  if (part.childElementCount < 2 * PART) return;
  const items = [...part.children].slice(PART);
  for (let first = 0, last = part; first < items.length; first += PART, last = last.nextElementSibling) last.after(part_of(items.slice(first, first + PART)));
}

// Splits the lists that grew, and notes for each how many cards are before it, and its height.
function measure_parts(cards) {
  let first = 0;
  for (let part = $("cards").firstElementChild, next; part; part = next) {
    const has_editor = editor && editor.element.parentNode === part;
    if (!has_editor) split_part(part);
    next = part.nextElementSibling;
    if (!part.firstElementChild) part.remove();
    const behind = first + part.childElementCount - (has_editor ? 1 : 0);
    const lines = cards.slice(first, behind).reduce((sum, card) => sum + Math.max(1, card.code.length), 0);
    const look = `--before: ${first}; contain-intrinsic-height: ${(lines * LINE).toFixed(1)}em`;
    if (part.getAttribute("style") !== look) part.setAttribute("style", look);
    first = behind;
  }
}

// Shows the cards of the deck that was shown: what is the same stays, and what changed is marked.
function show_changes(cards, symbols) {
  const old = shown.cards, items = shown.items, stood = standing();
  const from = same_lines(old.map(card => card.text), cards.map(card => card.text));
  const names = changed_names(shown.symbols, symbols), kept = new Set(from);
  const has_links_changed = card => names.length > MOST_NAMES || names.some(name => card.text.includes(name));
  items.forEach((item, n) => { if (!kept.has(n)) item.remove(); });
  let next = 0;
  shown.items = cards.map((card, n) => {
    const was = old[from[n]], item = was ? items[from[n]] : made("li");
    const same = mark_card(item, card, was, Boolean(was) && from[n] > next && (n === 0 || from[n - 1] >= 0));
    if (!same || card.said !== was.said || has_links_changed(card)) fill_card(item, card, symbols);
    if (was) next = from[n] + 1; else item.tabIndex = -1;
    return item;
  });
  put_between(shown.items, from);
  measure_parts(cards);
  if (stood >= 0 && !kept.has(stood)) {
    shown.cards = cards;
    stand_on(place_of(from, stood), document.activeElement === document.body);
  }
}

// Puts the cards that are new behind the ones in front of them.
function put_between(items, from) {
  if (!items.length) return;
  if (!$("cards").firstElementChild) $("cards").append(part_of([]));
  items.forEach((item, n) => {
    if (from[n] >= 0) return;
    const front = editor && editor.item === items[n - 1] ? editor.element : items[n - 1];
    if (n) front.after(item); else $("cards").firstElementChild.prepend(item);
  });
}

// The names that are symbols by one deck, and not by the other.
function changed_names(old, now) {
  const is_symbol = (symbols, name) => symbols.defined.has(name) || symbols.external.has(name);
  const names = symbols => [...symbols.defined.keys(), ...symbols.external];
  return [...names(old).filter(name => !is_symbol(now, name)), ...names(now).filter(name => !is_symbol(old, name))];
}

function show_cards(cards, is_same) {
  const symbols = symbols_of(cards);
  if (is_same) show_changes(cards, symbols); else show_deck(cards, symbols);
  Object.assign(shown, { symbols, cards });
  show_meaning();
  const letters = [...new Set(cards.map(card => card.letters).join(""))].sort().join("");
  $("letters").textContent = meaning_of(letters);
  if (entered && entered.isConnected) enter_at(entered); else if (shown.items.length) enter_at(shown.items[0]);
}

// Shows what is said of the card that one stands on.
function show_meaning() {
  const card = shown.cards[standing()];
  const text = card && card.letters ? said_of(card) : "";
  if ($("meaning").textContent !== text) $("meaning").textContent = text;
}

// Shows lines; those that did not stand there before are marked, where something of the same stood there.
function show_lines(element, lines, old, dress) {
  const known = old && new Set(old), parts = [];
  let plain = "";
  for (const line of lines) {
    const special = dress && dress(line);
    if (special || (known && !known.has(line))) {
      const part = special || made("ins", "", line);
      if (special && known && !known.has(line)) part.style.background = "var(--new-code)";
      parts.push(plain, part);
      plain = "\n";
    } else plain += line + "\n";
  }
  parts.push(plain);
  element.replaceChildren(...parts);
}

function dress_link(line) {
  if (!line.startsWith("LINK ")) return null;
  const part = made("span", "link", line), letter = line.split(" ")[1];
  part.title = `${letter}: ${LINKS[letter] || "?"}`;
  return part;
}

// Shows what was published of the chosen deck: all of one version.
function show_publication(published, version, list, image, map, counts, said) {
  const is_same = shown.deck === chosen && shown.published !== null;
  const listing = listing_of(list ? list.rows : []);
  put_said(listing.cards, said);
  show_cards(listing.cards, is_same);
  const words = image ? image.rows : [];
  show_lines($("image"), words.length ? words : ["nothing of it is in the image"], is_same ? shown.image : null);
  show_lines($("map"), map.rows, shown.published === null ? null : shown.map, dress_link);
  flagged = counts;
  $("title").textContent = chosen ? `Listing of ${chosen} ${listing.kind}` : "Listing";
  $("image-of").textContent = chosen ? `of ${chosen}` : "";
  $("first").hidden = !list || listing.cards.length > 0;
  $("keys").hidden = !chosen;
  const count = counts.get(chosen) || 0, flags = count === 1 ? "1 statement is flagged" : `${count} statements are flagged`;
  $("about").textContent = !chosen ? "Choose a deck." : !list ? "Nothing of this deck is published yet." : `${flags}. ${listing.blocks.join("; ")}`;
  document.title = chosen ? `${chosen} ${published} - Beskloun` : "Beskloun";
  Object.assign(shown, { deck: chosen, published, version, image: words, map: map.rows });
  if (waiting) go_to_card(waiting);
  if (document.activeElement === document.body) $("first").focus();
}

// The listing as lines for paper, where as many elements as the cards have would take minutes.
function lines_for_paper(cards) {
  return cards.flatMap((card, n) => {
    const [first = "", ...rest] = card.code;
    return [`${card.letters.padStart(4)} ${first.padEnd(30)}${String(n + 1).padStart(6)}  ${card.text}`, ...rest.map(code => `     ${code}`)];
  });
}

const dress_flagged = line => line.slice(0, 4).trim() ? made("b", "", line) : null;

// ---- How it follows.

// Takes what is published, all of one version; again where the version changed among the replies.
async function take_publication() {
  for (let turn = 0; turn < TRIES; turn++) {
    const deck = chosen;
    const lines = ["STATUS FILES", "MAP", "ERRORS"].concat(deck ? [`LIST ${deck}`, `IMAGE ${deck}`] : []);
    const [status, map, errors, list, image] = await ask(...lines);
    const now = status_of(status);
    system = now;
    if (!map.ok || deck !== chosen) continue;
    if ([errors, list, image].some(part => part && part.ok && part.version !== map.version) || now.published !== map.version) continue;
    const row = now.decks.find(row => row.name === deck);
    const version = row && row.version <= map.version ? row.version : null;
    if (shown.deck === deck && shown.published === map.version) { shown.version = version; return; }
    const counts = counts_of(errors.rows), said = counts.get(deck) ? (await ask(`ERRORS ${deck} WORDS`))[0] : null;
    if (deck !== chosen || (said && said.ok && said.version !== map.version)) continue;
    show_publication(map.version, version, list && list.ok ? list : null, image && image.ok ? image : null, map, counts, said && said.ok ? said.rows : []);
    return;
  }
}

async function follow() {
  const [reply] = await ask("STATUS FILES");
  system = status_of(reply);
  if (chosen && !system.decks.some(deck => deck.name === chosen) && !editor) chosen = null;
  if (!chosen && system.decks.length && !location.hash) chosen = system.decks[0].name;
  const row = system.decks.find(deck => deck.name === chosen);
  const settled = !row || shown.version === row.version || row.version > system.published;
  if (system.published !== null && (system.published !== shown.published || shown.deck !== chosen || !settled)) await take_publication();
  show_decks();
  show_told();
}

let asked_now = () => {};
async function run() {
  for (;;) {
    if (document.visibilityState === "visible") {
      try {
        await follow();
        $("trouble").textContent = "";
      } catch (fault) {
        $("trouble").textContent = `The service does not answer (${fault.message}); trying again.`;
        await sleep(PERIOD * 2);
      }
    }
    await Promise.race([sleep(PERIOD), new Promise(done => { asked_now = done; })]);
  }
}

// ---- Where one goes.

let waiting = null;

function choose(name, card) {
  chosen = name;
  waiting = card || null;
  if (shown.deck === name && waiting) go_to_card(waiting);
  show_decks();
  asked_now();
}

function read_hash() {
  const told = location.hash.slice(1);
  let read = told;
  try { read = decodeURIComponent(told); } catch { /* as it stands */ }
  const [name, ...card] = read.split("/");
  if (name) choose(name, card.join("/"));
}

// Goes to a card by its number, or to the card that defines a symbol.
function go_to_card(card) {
  waiting = null;
  const number = /^\d+$/.test(card) ? Number(card) - 1 : shown.symbols.defined.get(card);
  if (number !== undefined) stand_on(number);
}

function stand_on(number, focus = true) {
  const item = shown.items[Math.max(0, Math.min(number, shown.items.length - 1))];
  if (!item) return;
  if (entered) entered.classList.remove("chosen");
  item.classList.add("chosen");
  enter_at(item);
  show_meaning();
  if (!focus) return;
  item.focus({ preventScroll: true });
  item.scrollIntoView({ block: "nearest" });
}

// Lets the tabulator reach a card with its symbols, and no other.
function enter_at(item) {
  const reach = (card, index) => { for (const part of [card, ...card.querySelectorAll("a")]) part.tabIndex = index; };
  if (entered && entered !== item) reach(entered, -1);
  reach(item, 0);
  entered = item;
}

// Where a symbol is defined: in this deck, or in the deck that the map shows. The browser's way back leads to the card
// that one stands on.
function go_to_symbol(name) {
  const entry = shown.map.map(row => row.split(" ")).find(words => words[0] === "ENTRY" && words[1] === name);
  const deck = shown.symbols.defined.has(name) ? shown.deck : entry && entry[2], at = standing();
  if (!deck) return;
  if (at >= 0) history.replaceState(null, "", `#${shown.deck}/${at + 1}`);
  location.hash = `#${deck}/${encodeURIComponent(name)}`;
}

function standing() {
  return entered && entered.classList.contains("chosen") ? shown.items.indexOf(entered) : -1;
}

function go_to_flag(step) {
  const count = shown.cards.length;
  for (let turn = 1, at = standing(); turn <= count; turn++) {
    const number = (at + step * turn + count * 2) % count;
    if (shown.cards[number].letters) return stand_on(number);
  }
}

function go_to_deck(step) {
  const names = system.decks.map(deck => deck.name), count = names.length;
  if (count) location.hash = `#${names[(names.indexOf(chosen) + step + count) % count]}`;
}

// ---- Search.

// The cards of all decks that have a text, with the cards themselves, and the first that one may go to.
async function search(text) {
  const sought = text.toUpperCase().replace(/ +$/, "");
  if (!sought || !system.decks.length) return;
  const decks = system.decks.map(deck => deck.name);
  const replies = await ask(...decks.map(name => `FIND ${name} ${sought}`));
  const hits = replies.flatMap((reply, n) => reply.rows.map(number => ({ deck: decks[n], number })));
  const told = hits.slice(0, MOST_HITS);
  const cards = told.length ? await ask(...told.map(hit => `CARDS ${hit.deck} ${hit.number} 1`)) : [];
  const items = told.map((hit, n) => {
    const item = made("li"), link = made("a", "", `${hit.deck} ${hit.number}`);
    link.href = `#${hit.deck}/${hit.number}`;
    link.append(made("small", "", (cards[n].rows[0] || "").trim()));
    item.append(link);
    return item;
  });
  const count = hits.length === 1 ? "1 card" : `${hits.length} cards`, more = hits.length > told.length ? `, of which ${told.length} are shown` : "";
  $("count").textContent = hits.length ? `${count}${more}` : "no card has it";
  $("found").replaceChildren(...items);
  $("hits").hidden = false;
  if (items.length) items[0].firstChild.focus(); else $("sought").focus();
}

function end_search() {
  $("hits").hidden = true;
  stand_on(Math.max(0, standing()));
}
"##;
