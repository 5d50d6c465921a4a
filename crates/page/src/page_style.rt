//! The top of the page: its title and its style.

pub(crate) const TOP: &str = r##"<!doctype html>
<html lang="en">
<head>
<meta charset="utf-8">
<meta name="viewport" content="width=device-width, initial-scale=1">
<link rel="icon" href="data:,">
<title>Beskloun</title>
<style>
:root {
  color-scheme: light dark;
  --paper: #fdfdf8; --ink: #1c1c1c; --faint: #5f5f5a; --rule: #c9c9bd;
  --flag: #a40000; --flag-paper: #fde9e4; --new: #d7ecd4; --new-code: #e3edf8; --link: #0b4f9c; --chosen: #ecebdc; --code: #30506e;
}
@media (prefers-color-scheme: dark) {
  :root {
    --paper: #16181a; --ink: #e6e6e0; --faint: #a3a39c; --rule: #44474a;
    --flag: #ff9b8a; --flag-paper: #44201b; --new: #1f3d22; --new-code: #1d3147; --link: #8fbcf2; --chosen: #2b2e31; --code: #9db8d2;
  }
}
* { box-sizing: border-box; }
html, body { height: 100%; margin: 0; }
body {
  display: grid; grid-template: auto 1fr / 14rem minmax(0, 1fr) 21.5rem;
  font: 14px/1.35 system-ui, sans-serif; color: var(--ink); background: var(--paper);
}
header {
  grid-column: 1 / -1; display: flex; flex-wrap: wrap; gap: .4rem 1.5rem; align-items: baseline;
  padding: .5rem .8rem; border-bottom: 1px solid var(--rule);
}
h1, h2 { font-size: 1rem; margin: 0; }
header .told { margin: 0; }
#trouble { margin: 0; color: var(--flag); font-weight: 600; }
#trouble:empty { display: none; }
.own { margin-left: auto; }
#name, #new-deck { width: 6rem; }
form.search, form.adding { display: flex; gap: .3rem; }
nav, main, aside { overflow: auto; min-height: 0; padding: .6rem .8rem; }
main { padding-top: 0; }
.about { position: sticky; top: 0; left: 0; z-index: 1; padding: .6rem 0 .3rem; background: var(--paper); border-bottom: 1px solid var(--rule); }
.about p { margin: .1rem 0 0; }
#meaning { color: var(--flag); white-space: pre-line; min-height: 1.35em; }
nav { border-right: 1px solid var(--rule); }
aside { border-left: 1px solid var(--rule); }
pre, ol, input.card, .code, .number { font: 13px/1.4 ui-monospace, "DejaVu Sans Mono", Consolas, monospace; }
pre { margin: .2rem 0 1rem; }
button, input { font: inherit; color: inherit; background: var(--paper); border: 1px solid var(--rule); border-radius: 3px; padding: .15rem .5rem; }
button { white-space: nowrap; }
button:hover { background: var(--chosen); }
:focus-visible { outline: 2px solid var(--link); outline-offset: 1px; }
#decks { list-style: none; margin: .4rem 0 1rem; padding: 0; }
#decks a { display: block; padding: .25rem .4rem; color: inherit; text-decoration: none; border-radius: 3px; }
#decks a[aria-current] { background: var(--chosen); }
#decks b { font-family: ui-monospace, "DejaVu Sans Mono", Consolas, monospace; }
#decks small { display: block; color: var(--faint); }
.flags { color: var(--flag); font-weight: 600; }
#found { list-style: none; padding: 0; margin: .4rem 0 1rem; }
#found a { display: block; padding: .15rem .4rem; color: var(--link); text-decoration: none; }
#found small { display: block; color: var(--faint); white-space: pre; overflow: hidden; text-overflow: ellipsis; font-family: ui-monospace, "DejaVu Sans Mono", Consolas, monospace; }
#cards { margin: .3rem 0 2rem; width: 123ch; min-width: 100%; font: 13px/1.4 ui-monospace, "DejaVu Sans Mono", Consolas, monospace; }
#cards ol { list-style: none; margin: 0; padding: 0; content-visibility: auto; }
#cards li { display: grid; grid-template-columns: 4ch 30ch 6ch 80ch; column-gap: 1ch; counter-increment: card; scroll-margin: 9rem 0 30vh; }
#cards li:first-child { counter-reset: card var(--before); }
#cards li::before { content: counter(card); grid-area: 1 / 3; color: var(--faint); text-align: right; padding-right: 1ch; }
#cards .letters { grid-area: 1 / 1; color: var(--flag); font-weight: 700; text-align: right; }
#cards .code { grid-area: 1 / 2; white-space: pre; color: var(--code); }
#cards .text { grid-area: 1 / 4; white-space: pre; }
#cards .text a { color: inherit; text-decoration: underline dotted var(--faint); cursor: pointer; }
#cards .text a:hover, #cards .text a:focus { color: var(--link); }
#cards li.flagged { cursor: help; }
#cards li.flagged .text { background: var(--flag-paper); color: var(--flag); }
#cards li.new { background: var(--new); }
#cards li.new-code .code, #cards li.new-code .letters { background: var(--new-code); }
#cards li.cut { border-top: 2px dashed var(--flag); }
#paper { display: none; }
#letters { display: none; white-space: pre-wrap; }
#cards li:hover { box-shadow: inset 3px 0 var(--rule); }
#cards li.chosen { box-shadow: inset 3px 0 var(--link); }
#cards li:focus-visible { outline-offset: -2px; position: relative; }
ins, .image ins, .map ins { text-decoration: none; background: var(--new-code); }
.map .link { color: var(--flag); cursor: help; }
#cards #editor { display: block; counter-increment: none; }
#cards #editor::before { content: none; }
#editor { border: 1px solid var(--link); border-radius: 4px; padding: .6rem; margin: .3rem 0 .6rem; width: calc(86ch + 2rem); background: var(--paper); }
#editor p { margin: 0 0 .4rem; }
#editor .ruler { margin: 0; padding: 0 calc(.5rem + 1px); color: var(--faint); }
#editor input.card { width: 100%; text-transform: uppercase; }
#editor .keys { display: flex; flex-wrap: wrap; gap: .4rem; margin-top: .5rem; align-items: center; }
#editor .answer:empty { display: none; }
#editor .answer { margin: .5rem 0 0; color: var(--flag); }
#editor .pasted { margin: .3rem 0; max-height: 15rem; overflow: auto; }
#editor pre.theirs { margin: .3rem 0; }
#editor pre mark { background: var(--new); color: inherit; }
.faint { color: var(--faint); }
kbd { border: 1px solid var(--rule); border-radius: 3px; padding: 0 .25rem; font-size: .9em; }
@media (max-width: 95rem) {
  body { grid-template: auto 1fr minmax(8rem, 30%) / 14rem minmax(0, 1fr); }
  nav { grid-row: 2 / 4; }
  aside { border-left: 0; border-top: 1px solid var(--rule); display: flex; gap: 2rem; }
}
@media (max-width: 60rem) {
  body { display: block; }
  nav, main, aside { border: 0; border-top: 1px solid var(--rule); }
  nav { max-height: 11rem; }
  main { overflow-x: auto; }
}
@media print {
  :root { --paper: #fff; --ink: #000; --faint: #333; --rule: #999; --flag: #000; --flag-paper: #fff; --new: #fff; --new-code: #fff; --link: #000; --code: #000; }
  @page { margin: 1cm; }
  html, body { height: auto; }
  body { display: block; font-size: 9pt; }
  nav, form.search, .own, #trouble, #meaning, #keys, #cards, #first, .image { display: none; }
  header { padding: .5rem 0; }
  main, aside { display: block; overflow: visible; border: 0; padding: 0; }
  .about { position: static; }
  pre { font-size: 7pt; }
  #paper, #letters { display: block; }
}
</style>
</head>
"##;
