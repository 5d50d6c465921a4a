//! The script of the page, its second part: cards are edited, decks are made and saved, and keys and clicks lead to all of it.

pub(crate) const EDITS: &str = r##"
const REFUSALS = {
  OldVersion: "The deck has not come to the version that is shown; load the page again.", NoSuchCard: "The deck has no such card.",
  NoDeck: "The deck is not there any more.", TooWide: "A card has 80 columns at most.", DeckFull: "The deck has 20,000 cards already.",
  Forgotten: "So much was changed since, or all cards at once, that the place can't be found any more; look for it in the deck.",
  NoChange: "No edit of this deck made that version.", Touched: "The card was changed since.",
  NameTaken: "There is a deck of this name.", TooManyDecks: "There are 64 decks already.", BadName: "A name has 1 to 7 letters and digits.",
  FileExists: "A file of this name stands there that this service neither loaded nor saved; a session's SAVE with FORCE writes over it.",
  CannotOpen: "The file can't be written; report it to the operator.", WriteFault: "Writing the file failed; save again.",
  NotKept: "The journal can't be written, so no change is made; report it to the operator.",
  OutOfMemory: "The service has no memory left; try again later.", BadCommand: "The card has a character that no card has.",
  UnknownCommand: "The service has no such command; load the page again.",
};
const AROUND = 2, MOMENT = 400, MOST_PASTED = 100, COLUMNS = 80, STOPS = [11, 18, 30];

// What a refusal means, with its own words.
function meaning_of_refusal(reply) {
  const [, reason, column] = reply.words;
  const meaning = reason === "BadCharacter" ? `Column ${column} has a character that no card has.` : REFUSALS[reason] || "";
  return `${meaning} (${reply.words.slice(1).join(" ")})`;
}

const meaning_of_unkept = reply => `Version ${reply.version} stands in the service, and its journal can't be written: report it to the operator.`;

const meaning_of_silence = fault => `No reply came (${fault.message}): the change may have been made or not. Look before you send it again.`;

// The name of who made a change, or the number of the session.
const who_of = who => /^\d+$/.test(who) ? `session ${who}` : who;

// Sends a change by one's name, where one has given it; gives its reply.
async function change(command) {
  const name = $("name").value;
  const replies = await ask(...(name ? [`HELLO ${name}`] : []), command);
  return replies[replies.length - 1];
}

// ---- The editor of a card.

let editor = null;
let overtypes = false;

function leave() {
  if (!editor) return;
  editor.element.remove();
  editor = null;
  if (entered && entered.isConnected) entered.focus(); else $("first").focus();
}

// Opens the editor below a card, by its number from 0; in a deck without cards for the first one.
function edit(number) {
  leave();
  const item = shown.items[number], is_first = !item && !$("first").hidden;
  if (shown.deck !== chosen || (!item && !is_first)) return;
  const element = $("editing").content.firstElementChild.cloneNode(true), find = kind => element.querySelector(kind);
  const cards = shown.cards.map(card => card.text), place = is_first ? 0 : number + 1;
  editor = { element, item, find, deck: chosen, version: shown.version ?? shown.published, place, cards, pasted: null, enter: null, is_removed: false, ready_at: 0, is_sending: false };
  find(".card").value = is_first ? "" : cards[number];
  listen_to_editor();
  if (is_first) $("cards").append(part_of([element])); else { stand_on(number, false); item.after(element); }
  tell_editor();
  find(".card").focus();
  find(".card").setSelectionRange(0, 0);
  tell_column();
}

function listen_to_editor() {
  const { element, find } = editor, input = find(".card");
  find(".save").onclick = () => send("REP");
  find(".before").onclick = () => send("INS", 0);
  find(".after").onclick = () => send("INS", 1);
  find(".remove").onclick = () => send("DEL");
  find(".leave").onclick = leave;
  input.onkeydown = type_key;
  input.onpaste = take_paste;
  for (const kind of ["keyup", "click", "input", "focus"]) input.addEventListener(kind, tell_column);
  element.onkeydown = event => {
    if (event.key === "Escape") leave();
    event.stopPropagation();
  };
}

// Offers the keys for what stands in the editor: a card that is gone is neither replaced nor deleted, nor is one by several.
function offer_keys() {
  if (editor.is_removed) offer(null, "before");
  else if (!editor.place) offer("after");
  else if (editor.pasted) offer("after", "before");
  else offer("save", "before", "after", "remove");
}

// Offers these keys and no others; the first of them is what Enter presses.
function offer(...kinds) {
  const names = { save: "replaces", before: "inserts", after: "inserts" };
  for (const kind of ["save", "before", "after", "remove"]) editor.find(`.${kind}`).hidden = !kinds.includes(kind);
  editor.enter = kinds[0];
  editor.find(".enter").textContent = names[kinds[0]] || "does nothing";
}

// Which card is edited, and by which version.
function tell_editor() {
  const { find, place, version, pasted, is_removed } = editor;
  find(".at").textContent = is_removed ? `A new card ${place}` : place ? `Card ${place}` : "The first card";
  find(".version").textContent = `, by version ${version}`;
  find(".pasted").hidden = !pasted;
  offer_keys();
  if (pasted) find(".pasted").textContent = `${pasted.length} cards, put in by one change:\n${pasted.join("\n")}`;
}

function tell_column() {
  if (editor) editor.find(".column").textContent = `column ${editor.find(".card").selectionStart + 1}${overtypes ? ", overtype" : ""}`;
}

function answer(text) {
  if (editor) editor.find(".answer").textContent = text;
}

// ---- Keys in a card.

const is_command = event => (event.ctrlKey || event.altKey || event.metaKey) && !event.getModifierState("AltGraph");

function type_key(event) {
  const input = event.target, at = input.selectionStart;
  if (event.key === "Enter" && editor.enter) editor.find(`.${editor.enter}`).click();
  else if (event.key === "Tab" && event.shiftKey) { event.preventDefault(); editor.find(".keys button:not([hidden])").focus(); }
  else if (event.key === "Tab" && go_to_stop(input, at)) event.preventDefault();
  else if (event.key === "Insert" && !is_command(event)) { event.preventDefault(); overtypes = !overtypes; }
  else if (overtypes && event.key.length === 1 && !is_command(event) && at === input.selectionEnd) input.setSelectionRange(at, at + 1);
  tell_column();
}

// Goes to the next tab stop: over the blanks that stand there, or over all when one overtypes, and by new blanks for the
// rest; whether there is a further stop.
function go_to_stop(input, from) {
  const stop = STOPS.find(stop => stop > from + 1), text = input.value;
  if (stop === undefined || input.readOnly) return false;
  let at = from;
  while (at < stop - 1 && (overtypes ? at < text.length : text[at] === " ")) at++;
  input.setRangeText(" ".repeat(stop - 1 - at), at, at, "end");
  return true;
}

// Takes lines that are pasted for cards, which the keys then insert together; a single line is pasted as ever.
function take_paste(event) {
  const lines = event.clipboardData.getData("text").replace(/\r\n?/g, "\n").replace(/\n+$/, "").split("\n");
  if (lines.length < 2) return;
  event.preventDefault();
  const cards = lines.map(card_of), fault = cards.map(fault_of).find(Boolean);
  if (fault || cards.length > MOST_PASTED) return answer(fault ? `Nothing was taken. ${fault}` : `Nothing was taken: at most ${MOST_PASTED} cards at once.`);
  editor.pasted = cards;
  editor.find(".card").readOnly = true;
  tell_editor();
  answer("");
}

const card_of = line => line.toUpperCase().replace(/ +$/, "");

// What is wrong with a card before it is sent: a longer line, or one with other letters, might end the session.
function fault_of(card) {
  if (/[^ -~]/.test(card)) return `Column ${card.search(/[^ -~]/) + 1} of a card has a character that no card has.`;
  return card.length > COLUMNS ? REFUSALS.TooWide : "";
}

// ---- What the editor sends.

// The command for what stands in an editor. The plus lets the card be found wherever others moved it.
function command_of({ deck, version, place, pasted, find }, verb, behind) {
  const seen = `${deck} ${version}+`, at = place + behind;
  if (verb === "DEL") return `DEL ${seen} ${at}`;
  if (pasted) return [`BATCH ${seen} ${pasted.length}`, ...pasted.map((card, n) => `INS ${at + n} ${card}`)].join("\n");
  return `${verb} ${seen} ${at} ${card_of(find(".card").value)}`;
}

// Sends an edit once, and not within a moment from when something was shown that one has to read first.
async function send(verb, behind = 0) {
  const sender = editor, wrong = verb === "DEL" ? "" : fault_of(card_of(editor.find(".card").value));
  if (sender.is_sending || performance.now() < sender.ready_at) return;
  if (wrong) return answer(wrong);
  sender.is_sending = true;
  try {
    const reply = await change(command_of(sender, verb, behind));
    if (reply.ok) note_change(sender.deck, reply.version);
    if (reply.is_unkept) tell_done(meaning_of_unkept(reply));
    if (editor !== sender) return;
    if (reply.ok) leave();
    else if (reply.words[1] === "Touched") await show_theirs(sender);
    else answer(meaning_of_refusal(reply));
  } catch (fault) {
    if (editor === sender) answer(meaning_of_silence(fault));
  } finally {
    sender.is_sending = false;
  }
}

// What became of a card by the lines of CHANGES: the cards now, its place there or that where it stood, and who changed
// it last, in which version; once it was removed, who removed it.
function fate_of(cards, place, rows) {
  const now = cards.slice();
  let by = null, is_removed = false;
  for (let n = 0; n < rows.length; ) {
    const [, version, who, count] = rows[n++].split(" ");
    for (const end = n + Number(count); n < end; n++) {
      const [, verb, number, text] = /^(\S+) (\d+) ?(.*)$/.exec(rows[n]), at = Number(number), is_it = at === place && !is_removed;
      if (is_it && verb !== "INS") by = { who, version };
      if (verb === "REP") { now[at - 1] = text; continue; }
      if (verb === "INS") now.splice(at - 1, 0, text); else now.splice(at - 1, 1);
      if (is_it && verb === "DEL") is_removed = true;
      else if (at < place || is_it) place += verb === "INS" ? 1 : -1;
    }
  }
  return { cards: now, place, by, is_removed };
}

// Shows what others did to the card, and the cards around its place as they are now, beside one's own; from then on the
// editor goes by these. A card that was removed can't be written to any more, only put in anew.
async function show_theirs(sender) {
  const [reply] = await ask(`CHANGES ${sender.deck} ${sender.version}`);
  if (editor !== sender) return;
  if (!reply.ok) return answer(meaning_of_refusal(reply));
  const fate = fate_of(sender.cards, sender.place, reply.rows), seen = sender.place;
  Object.assign(sender, { version: reply.version, place: fate.place, cards: fate.cards, is_removed: fate.is_removed, ready_at: performance.now() + MOMENT });
  show_around(fate);
  tell_editor();
  const doing = fate.is_removed ? "removed" : "replaced", by = fate.by && `${who_of(fate.by.who)} ${doing} card ${seen} in version ${fate.by.version}.`;
  if (fate.is_removed) {
    sender.find(".before").textContent = "Insert in its place";
    answer(`${by} Nothing of yours was done. Yours can be put in as a new card where that one stood; Enter does nothing.`);
  } else answer(`${by || REFUSALS.Touched} Nothing of yours was done. The keys above send yours all the same.`);
}

function show_around({ cards, place, is_removed }) {
  const first = Math.max(1, place - AROUND), numbered = (number, text) => `${String(number).padStart(5)}  ${text}\n`;
  const rows = cards.slice(first - 1, place + AROUND).map((text, n) =>
    first + n === place && !is_removed ? made("mark", "", numbered(place, text)) : numbered(first + n, text));
  const own = editor.pasted ? editor.pasted.join("\n       ") : card_of(editor.find(".card").value), theirs = editor.find(".theirs");
  theirs.replaceChildren(`The deck at version ${editor.version}:\n`, ...rows, "Yours:\n", numbered("", own));
  theirs.hidden = false;
}

// ---- What one does with a deck.

// The changes that one made on this page and has not taken back, each with its deck and the version that it made.
let own_changes = [];

function note_change(deck, version) {
  own_changes.push({ deck, version });
  asked_now();
}

function tell_done(text) {
  $("done").textContent = text;
}

// Sends the command of a key, one after the other, and shows what came of it.
let is_doing = false;
async function do_and_tell(command, tell) {
  if (is_doing) return;
  is_doing = true;
  try {
    const reply = await change(command);
    const done = reply.ok ? tell(reply.version) : meaning_of_refusal(reply);
    tell_done(reply.is_unkept ? meaning_of_unkept(reply) : done);
  } catch (fault) {
    tell_done(meaning_of_silence(fault));
  } finally {
    is_doing = false;
  }
  asked_now();
}

function make_deck() {
  const name = $("new-deck").value;
  if (!name) return;
  do_and_tell(`ADD ${name}`, version => {
    $("new-deck").value = "";
    $("new-deck").blur();
    location.hash = `#${name}`;
    return `Deck ${name} was made, by version ${version}.`;
  });
}

function take_back() {
  const own = own_changes.filter(own => own.deck === chosen), last = own[own.length - 1];
  if (!last) return tell_done("There is no change of yours in this deck that could be taken back.");
  do_and_tell(`UNDO ${last.deck} ${last.version}`, version => {
    own_changes = own_changes.filter(own => own !== last);
    return `Your change of version ${last.version} is taken back, by version ${version}.`;
  });
}

function save_deck() {
  const name = chosen;
  if (name) do_and_tell(`SAVE ${name}`, version => `Deck ${name} is saved, at version ${version}.`);
}

// One's name stays with the browser.
function keep_name() {
  try { localStorage.setItem("name", $("name").value); } catch { /* for this page alone */ }
}

function recall_name() {
  try { $("name").value = localStorage.getItem("name") || ""; } catch { /* none */ }
}

// ---- Keys and clicks.

// Enter that is held counts once, whatever it presses.
document.addEventListener("keydown", event => {
  if (event.key !== "Enter" || !event.repeat) return;
  event.preventDefault();
  event.stopPropagation();
}, true);

$("cards").addEventListener("click", event => {
  if (event.target.closest("#editor")) return;
  const symbol = event.target.dataset && event.target.dataset.symbol;
  if (symbol) { go_to_symbol(symbol); return; }
  const number = shown.items.indexOf(event.target.closest("#cards li"));
  if (number < 0) return;
  if (number === standing() && String(getSelection()) === "") edit(number);
  else stand_on(number);
});

$("cards").addEventListener("keydown", event => {
  if (event.key !== "Enter") return;
  event.preventDefault();
  const symbol = event.target.dataset && event.target.dataset.symbol;
  if (symbol) go_to_symbol(symbol);
  else edit(shown.items.indexOf(event.target));
});

const MOVES = {
  j: () => stand_on(standing() + 1), k: () => stand_on(standing() - 1),
  ArrowDown: () => stand_on(standing() + 1), ArrowUp: () => stand_on(standing() - 1),
  n: () => go_to_flag(1), p: () => go_to_flag(-1),
  "]": () => go_to_deck(1), "[": () => go_to_deck(-1),
};
const ACTS = {
  "/": () => $("sought").select(), "+": () => $("new-deck").select(), Escape: end_search,
  u: take_back, s: save_deck, Enter: () => edit(Math.max(0, standing())),
};

document.addEventListener("keydown", event => {
  if (is_command(event) || event.target.closest("input, textarea")) return;
  const act = MOVES[event.key] || (!event.repeat && ACTS[event.key]);
  const is_elsewhere = event.key.startsWith("Arrow") ? !event.target.closest("#cards") : event.key === "Enter" && event.target !== document.body;
  if (!act || is_elsewhere) return;
  event.preventDefault();
  act();
});

$("search").addEventListener("submit", event => {
  event.preventDefault();
  search($("sought").value).catch(fault => { $("trouble").textContent = `The search had no answer (${fault.message}).`; });
});

$("adding").addEventListener("submit", event => {
  event.preventDefault();
  make_deck();
});

for (const id of ["name", "new-deck"]) $(id).addEventListener("input", event => {
  event.target.value = event.target.value.toUpperCase().replace(/[^A-Z0-9]/g, "");
});
$("name").addEventListener("input", keep_name);
$("first").addEventListener("click", () => edit(0));
$("save").addEventListener("click", save_deck);
$("undo").addEventListener("click", take_back);
$("sought").addEventListener("keydown", event => { if (event.key === "Escape") end_search(); });
addEventListener("beforeprint", () => show_lines($("paper"), lines_for_paper(shown.cards), null, dress_flagged));
addEventListener("afterprint", () => $("paper").replaceChildren());
addEventListener("hashchange", read_hash);
document.addEventListener("visibilitychange", () => asked_now());
recall_name();
read_hash();
run();
</script>
</body>
</html>
"##;
