//! The text of the page.

pub(crate) const BODY: &str = r##"<body>
<header>
  <h1>Beskloun</h1>
  <p class="told" id="told" role="status">Asking the service.</p>
  <p id="trouble" role="alert"></p>
  <label class="own">Your name <input id="name" size="7" maxlength="7" autocomplete="off" spellcheck="false" placeholder="none"></label>
  <form class="search" id="search" role="search">
    <input id="sought" type="search" maxlength="72" autocomplete="off" spellcheck="false" placeholder="Search all cards" aria-label="Search the cards of all decks">
    <button>Search</button>
  </form>
</header>
<nav aria-label="Decks">
  <h2>Decks</h2>
  <ul id="decks"></ul>
  <form class="adding" id="adding">
    <input id="new-deck" size="7" maxlength="7" autocomplete="off" spellcheck="false" placeholder="Name" aria-label="Name of a new deck">
    <button>New deck</button>
  </form>
  <div id="hits" hidden>
    <h2>Found</h2>
    <p class="faint" id="count" role="status"></p>
    <ol id="found"></ol>
  </div>
  <p class="faint help">
    <kbd>j</kbd> <kbd>k</kbd> or the arrows go from card to card, <kbd>Enter</kbd> edits one, <kbd>Tab</kbd> reaches its symbols,
    <kbd>n</kbd> <kbd>p</kbd> go to the next flagged card or the one before, <kbd>]</kbd> <kbd>[</kbd> to the next deck or the one before, <kbd>/</kbd> searches.
    <kbd>u</kbd> takes back your last change of the deck, <kbd>s</kbd> saves it, <kbd>+</kbd> makes a new one.
  </p>
</nav>
<main>
  <div class="about">
    <h2 id="title">Listing</h2>
    <p class="faint" id="about">Choose a deck.</p>
    <p class="keys" id="keys" hidden>
      <button id="save">Save</button>
      <button id="undo">Take back my last change</button>
      <span class="faint" id="done" role="status"></span>
    </p>
    <p id="meaning" role="status"></p>
  </div>
  <div id="cards" role="group" aria-label="Cards of the deck"></div>
  <button id="first" hidden>Put in the first card</button>
  <pre id="paper"></pre>
  <pre id="letters"></pre>
</main>
<aside>
  <section class="image">
    <h2>Image <span class="faint" id="image-of"></span></h2>
    <pre id="image"></pre>
  </section>
  <section class="map">
    <h2>Map</h2>
    <pre id="map"></pre>
  </section>
</aside>
<template id="editing">
  <li id="editor">
    <p class="faint"><span class="at"></span><span class="version"></span>; <span class="column"></span></p>
    <pre class="ruler" aria-hidden="true">1         11     18          30                                         73</pre>
    <input class="card" maxlength="200" autocomplete="off" spellcheck="false" aria-label="The card">
    <pre class="pasted" hidden></pre>
    <div class="keys">
      <button class="save">Replace</button>
      <button class="before">Insert before</button>
      <button class="after">Insert after</button>
      <button class="remove">Delete</button>
      <button class="leave">Leave</button>
      <span class="faint"><kbd>Enter</kbd> <span class="enter"></span>, <kbd>Esc</kbd> leaves, <kbd>Tab</kbd> goes to the next stop, <kbd>Shift</kbd> <kbd>Tab</kbd> to these keys, <kbd>Insert</kbd> overtypes</span>
    </div>
    <p class="answer" role="alert"></p>
    <pre class="theirs" hidden></pre>
  </li>
</template>
"##;
