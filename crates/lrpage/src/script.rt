//! What a page does by itself: it makes the parts of the grammar and the states out of data, once they come into sight, draws trees, and
//! has a filter, and links into parts that are closed or left out.

/// The script. It makes no sentence of the page into markup.
pub(crate) const SCRIPT: &str = r#"'use strict';
const SVG = 'http://www.w3.org/2000/svg';
const FONT = '13px ui-monospace, "DejaVu Sans Mono", Menlo, Consolas, monospace';
const ROW = 46, GAP = 12, BOX = 24, WIDEST = 660;
const pen = document.createElement('canvas').getContext('2d');
const byId = id => document.getElementById(id);

/* The file by its numbers. A token: its name, and its level; a rule: its name, and its line; a production: its rule and its symbols,
   and the token behind %prec; a state: its items, and its edges. */
const rowsOf = id => (byId(id)?.textContent ?? '').split('\n').slice(0, -1).map(row => row.split('\t'));
const numbersOf = list => list.split(' ').filter(Boolean).map(Number);
const pairsOf = list => list.split(' ').filter(Boolean).map(pair => pair.split('.').map(Number));
const tokens = rowsOf('tokens'), rules = rowsOf('rules'), states = rowsOf('graph');
const productions = rowsOf('productions').map(([symbols, prec]) => {
  const [rule, ...body] = numbersOf(symbols);
  return { rule, body, prec };
});

/* Symbols have numbers: tokens even ones, rules odd ones. */
const idOf = symbol => (symbol % 2 ? 'r' : 't') + (symbol >> 1);
const nameOf = symbol => (symbol % 2 ? rules : tokens)[symbol >> 1][0];

function add(parent, name, text, attributes = {}) {
  const made = document.createElement(name);
  for (const [key, value] of Object.entries(attributes)) made.setAttribute(key, value);
  if (text !== undefined) made.textContent = text;
  return parent.appendChild(made);
}
const addLink = (parent, text, id) => add(parent, 'a', text, { href: '#' + id });
const count = (number, word) => number + ' ' + word + (number === 1 ? '' : 's');

/* Adds a body, perhaps with a dot before one of its symbols or behind all. */
function addBody(parent, { body }, dot) {
  body.forEach((symbol, place) => {
    if (place === dot) add(parent, 'b', '\u2022', { class: 'dot' });
    if (place) parent.append(' ');
    if (symbol % 2) addLink(parent, nameOf(symbol), idOf(symbol)); else parent.append(nameOf(symbol));
  });
  if (dot >= body.length) add(parent, 'b', '\u2022', { class: 'dot' });
  if (dot === undefined && !body.length) add(parent, 'span', '%empty', { class: 'soft' });
}

/* The tree that steps put together: s for a leaf, or for a node the number of its production. */
function treeOf(steps) {
  const open = [];
  let leaves = 0;
  for (const [place, step] of steps.entries()) {
    if (step === 's') {
      open.push({ from: leaves, to: ++leaves, below: [], height: 0 });
      continue;
    }
    const { rule, body } = productions[step];
    const below = body.length ? open.splice(-body.length) : [];
    below.forEach((node, k) => { node.symbol = body[k]; });
    const from = below.length ? below[0].from : leaves;
    const height = 1 + below.reduce((most, node) => Math.max(most, node.height), 0);
    open.push({ symbol: rule, production: step, from, to: leaves, below, height, place });
  }
  return open.pop();
}

/* A tree without the node of $accept, the first rule, and the token that ends all. */
const innerOf = root => (root.symbol === 1 ? root.below.at(-2) : root);

/* The nodes of a tree from left to right, each before those below it. */
function nodesOf(root) {
  const nodes = [], open = [root];
  while (open.length) {
    const node = open.pop();
    nodes.push(node);
    for (const child of node.below.slice().reverse()) open.push(child);
  }
  return nodes;
}

/* Marks the inner nodes with a key that no node of the other tree is left to answer. */
function markAgainst(nodes, others, key) {
  const left = new Map(), isInner = node => node.height > 0;
  for (const node of others.filter(isInner)) left.set(key(node), (left.get(key(node)) || 0) + 1);
  for (const node of nodes.filter(isInner)) {
    const count = Math.max(0, left.get(key(node)) || 0);
    node.differs = count === 0;
    left.set(key(node), count - 1);
  }
  return nodes.some(node => node.differs);
}

/* Marks what differs: by rule and span, or else by production and span. */
function markDiffering(one, other) {
  for (const label of ['symbol', 'production']) {
    const key = node => [node[label], node.from, node.to].join();
    const marks = [markAgainst(one, other, key), markAgainst(other, one, key)];
    if (marks.includes(true)) return;
  }
}

/* Puts a node in place of the nodes between the first and the last of a chain, in which each stands alone below the one above it;
   but not of the one by which the tree parts from the other. */
function foldChains(nodes, parting) {
  const isAbove = node => node.below.length === 1 && node.below[0].height > 0;
  for (const node of nodes) {
    const chain = [];
    let last = node;
    while (isAbove(last) && isAbove(last.below[0]) && last.below[0].place !== parting) chain.push(last = last.below[0]);
    if (chain.length < 2 || node.isLeftOut) continue;
    for (const link of chain) link.isLeftOut = true;
    const title = chain.map(link => nameOf(link.symbol)).join(' '), differs = chain.some(link => link.differs);
    node.below = [{ ...node, name: '\u2026', above: node, chain, title, differs, below: last.below }];
  }
}

/* Says how many nodes stand below each other at the most, and how wide each is, by itself and with what is below it. */
function measure(nodes) {
  pen.font = FONT;
  for (const node of nodes.slice().reverse()) {
    if (node.height) node.height = 1 + node.below.reduce((most, child) => Math.max(most, child.height), 0);
    node.name ??= nameOf(node.symbol);
    node.box = pen.measureText(node.name).width + 16;
    node.row = node.below.reduce((sum, child) => sum + child.width + GAP, -GAP);
    node.width = Math.max(node.box, node.row);
  }
}

/* Says where the nodes of a tree stand: each in the middle above what is below it, and all leaves in one row. */
function arrange(root, nodes) {
  root.left = 1;
  for (const node of nodes) {
    node.x = node.left + node.width / 2;
    node.y = (root.height - node.height) * ROW + BOX / 2 + 1;
    let left = node.x - node.row / 2;
    for (const child of node.below) {
      child.left = left;
      left += child.width + GAP;
    }
  }
  for (const node of nodes) {
    for (const child of node.below) child.line = `M${node.x} ${node.y}v${ROW / 2}H${child.x}V${child.y}`;
  }
  return { width: root.width + 2, height: root.height * ROW + BOX + 2 };
}

/* Says where the nodes of a wide tree stand: each in a row of its own, further to the right than the one above it. */
function arrangeRows(root, nodes) {
  root.left = 1;
  nodes.forEach((node, row) => {
    node.x = node.left + node.box / 2;
    node.y = row * (BOX + 4) + BOX / 2 + 1;
    for (const child of node.below) child.left = node.left + 22;
  });
  for (const node of nodes) {
    for (const child of node.below) child.line = `M${node.left + 11} ${node.y}V${child.y}H${child.left}`;
  }
  const right = nodes.reduce((most, node) => Math.max(most, node.left + node.box), 0);
  return { width: right + 1, height: nodes.length * (BOX + 4) };
}

function svg(parent, name, attributes, text) {
  const made = document.createElementNS(SVG, name);
  for (const [key, value] of Object.entries(attributes)) made.setAttribute(key, value);
  if (text !== undefined) made.textContent = text;
  return parent.appendChild(made);
}

/* Draws a tree, with its dot before that leaf; a node for a chain opens that, and has all drawn again. */
function drawTree(figure, root, nodes, dot, isWide, redraw) {
  const { width, height } = (isWide ? arrangeRows : arrange)(root, nodes);
  const drawing = svg(figure, 'svg', { width, height, viewBox: `0 0 ${width} ${height}` });
  drawing.style.minWidth = (isWide ? 1 : 0.7) * width + 'px';
  for (const node of nodes) {
    for (const child of node.below) svg(drawing, 'path', { d: child.line, class: node.differs ? 'differs' : '' });
  }
  for (const { symbol, differs, name, x, y, box, above, chain, title } of nodes) {
    const link = svg(drawing, 'a', { href: chain ? '#' : '#' + idOf(symbol), class: differs ? 'differs' : '' });
    const rect = { x: x - box / 2, y: y - BOX / 2, width: box, height: BOX, rx: 5 };
    svg(link, 'rect', { ...rect, class: symbol % 2 ? '' : 'token' });
    svg(link, 'text', { x, y: y + 4.5 }, name);
    if (!chain) continue;
    svg(link, 'title', {}, title);
    link.addEventListener('click', event => {
      event.preventDefault();
      above.below = [chain[0]];
      redraw();
    });
  }
  const leaves = nodes.filter(node => node.height === 0), next = leaves[dot];
  const x = next ? next.left - GAP / 2 : width - 1, y = next ? next.y - BOX / 2 - 2 : height - 1;
  svg(drawing, 'path', { class: 'dot', d: isWide ? `M0 ${y}H${width}` : `M${x} ${height - BOX - 12}V${height}` });
}

/* Draws both trees side by side, or one that is there alone. */
function drawTrees(trees) {
  const before = trees.dataset.before.split(' ').filter(Boolean);
  const dot = before.filter(step => step === 's').length;
  const figures = [...trees.querySelectorAll('figure')];
  const roots = figures.map(figure => innerOf(treeOf(before.concat(figure.dataset.steps.split(' ')))));
  const whole = roots.map(nodesOf);
  if (whole.length > 1) markDiffering(...whole);
  whole.forEach(nodes => foldChains(nodes, before.length));
  const redraw = () => {
    trees.querySelectorAll('svg').forEach(drawing => drawing.remove());
    const nodes = roots.map(nodesOf);
    nodes.forEach(measure);
    const isWide = roots.some(root => root.width > WIDEST);
    figures.forEach((figure, k) => drawTree(figure, roots[k], nodes[k], dot - roots[k].from, isWide, redraw));
  };
  redraw();
}

/* What fills a part of the grammar or a state, until that is done: when it comes into sight, or is looked for. */
const fillers = new Map();
const watcher = new IntersectionObserver(
  seen => seen.forEach(one => { if (one.isIntersecting) fill(one.target); }), { rootMargin: '50%' });
function fill(part) {
  const filler = fillers.get(part);
  if (!filler) return;
  fillers.delete(part);
  watcher.unobserve(part);
  filler(part);
}
function addPart(section, name, id, filler) {
  const part = add(section, name, undefined, { class: 'part', ...id });
  fillers.set(part, filler);
  watcher.observe(part);
  return part;
}

const ofRule = rules.map(() => []);
for (const production of productions) ofRule[production.rule >> 1].push(production);

/* Adds the productions of a rule. */
function fillRule(part, rule) {
  const list = add(part, 'ol', undefined, { class: 'body' });
  for (const production of ofRule[rule]) {
    const item = add(list, 'li');
    addBody(item, production);
    if (production.prec) add(item, 'span', ' %prec ' + tokens[production.prec][0], { class: 'soft' });
  }
}

/* Adds the rules, and the tokens. */
function addGrammar(section) {
  rules.forEach(([name, line], rule) => {
    const part = addPart(section, 'section', {}, part => fillRule(part, rule));
    add(part, 'dfn', name, { id: 'r' + rule });
    if (line) add(part, 'span', ' line ' + line, { class: 'soft' });
  });
  const part = add(section, 'details', undefined, { class: 'part' });
  add(add(part, 'summary'), 'b', 'Tokens');
  const list = add(part, 'ul', undefined, { class: 'names' });
  tokens.forEach(([name, level], token) => {
    if (level === '-') return;
    const item = add(list, 'li');
    add(item, 'dfn', name, { id: 't' + token });
    if (level) add(item, 'span', ' ' + level, { class: 'soft' });
  });
}

/* The cards of a section by the states that they are about. */
function cardsIn(section) {
  const found = states.map(() => []);
  for (const card of document.querySelectorAll(`#${section} > [data-state]`)) found[card.dataset.state].push(card);
  return found;
}
const conflicts = cardsIn('conflicts'), resolved = cardsIn('resolved');

/* Adds the titles of cards, which lead to them. */
function addCards(part, cards, name) {
  for (const card of cards) {
    addLink(add(part, 'p', undefined, { class: name }), undefined, card.id).append(
      ...card.querySelector('.title').cloneNode(true).childNodes);
  }
}

/* Adds an item: of the production around the grammar with what the file knows of it. */
function addItem(list, production, dot) {
  if (production === productions.length && !dot) {
    productions.forEach(({ rule }, inner) => { if (rule === 1) addItem(list, inner, 0); });
    return;
  }
  const item = add(list, 'li');
  const rule = productions[production]?.rule ?? 1;
  addLink(item, nameOf(rule), idOf(rule));
  item.append(production < productions.length ? ': ' : ' ');
  addBody(item, productions[production] ?? { body: [] }, dot);
}

/* Adds the items of a state, what its cards are about, and its edges. */
function fillState(part, state) {
  const [items, edges] = states[state].map(pairsOf);
  const list = add(part, 'ul', undefined, { class: 'body' });
  for (const [production, dot] of items) addItem(list, production, dot);
  addCards(part, conflicts[state], 'conflict');
  addCards(part, resolved[state], 'settled');
  if (!edges.length) return;
  const closed = add(part, 'details');
  add(closed, 'summary', count(edges.length, 'edge'));
  const names = add(closed, 'p', undefined, { class: 'names' });
  for (const [symbol, target] of edges) addLink(names, nameOf(symbol) + ' \u2192 ' + target, 's' + target);
}

function addStates(section) {
  states.forEach((row, state) => {
    const part = addPart(section, 'section', { id: 's' + state }, part => fillState(part, state));
    const head = add(part, 'h3', 'State ' + state), open = conflicts[state].length, settled = resolved[state].length;
    if (open) add(head, 'span', count(open, 'conflict'), { class: 'tag marked' });
    if (settled) add(head, 'span', settled + ' resolved', { class: 'tag' });
  });
}

addGrammar(byId('grammar'));
if (states.length) addStates(byId('states'));

/* Draws the trees of a part only once it is open. */
const drawn = new WeakSet();
function draw(part) {
  for (const trees of part.querySelectorAll('[data-before]')) {
    if (trees.closest('details') !== part || drawn.has(trees)) continue;
    drawn.add(trees);
    drawTrees(trees);
  }
}

const field = byId('filter'), told = byId('told');
const sections = [...document.querySelectorAll('main > section')];
const parts = [...document.querySelectorAll('.part')];
const FEW = 12, MOST = 2000;
let texts, opened = [];

/* The words of a text, as ranges. */
function rangesOf(node, words) {
  const text = node.data.toLowerCase(), found = [];
  for (const word of words) {
    for (let at = text.indexOf(word); at >= 0; at = text.indexOf(word, at + word.length)) {
      const range = new Range();
      range.setStart(node, at);
      range.setEnd(node, at + word.length);
      found.push(range);
    }
  }
  return found;
}

/* Marks words in these parts, where the browser can. */
function markWords(shown, words) {
  if (!globalThis.Highlight) return;
  const found = [];
  for (const part of words.length ? shown : []) {
    const walk = document.createTreeWalker(part, NodeFilter.SHOW_TEXT);
    while (found.length < MOST && walk.nextNode()) found.push(...rangesOf(walk.currentNode, words));
  }
  CSS.highlights.set('found', new Highlight(...found));
}

/* Shows the parts alone that have all words of the field, and opens them if they are few. */
function filter() {
  if (!texts) parts.forEach(fill);
  texts ??= parts.map(part => part.textContent.toLowerCase());
  const words = field.value.toLowerCase().split(/\s+/).filter(Boolean);
  parts.forEach((part, k) => { part.hidden = !words.every(word => texts[k].includes(word)); });
  const shown = parts.filter(part => !part.hidden);
  for (const section of sections) section.hidden = words.length > 0 && !shown.some(part => section.contains(part));
  for (const part of opened) part.open = false;
  opened = words.length && shown.length <= FEW ? shown.filter(part => part.localName === 'details' && !part.open) : [];
  for (const part of opened) part.open = true;
  told.textContent = words.length ? shown.length + ' of ' + parts.length : '';
  markWords(shown, words);
}

/* Opens and shows what the address names. Parts before it are filled first, so that it stays in sight. */
function reveal() {
  const target = byId(location.hash.slice(1));
  if (!target) return;
  if (target.closest('.part')?.hidden) {
    field.value = '';
    filter();
  }
  let near = target.closest('.part');
  for (let turn = 0; near && turn < 24; turn++, near = near.previousElementSibling) fill(near);
  for (let part = target; part; part = part.parentElement) {
    if (part.localName === 'details') part.open = true;
  }
  target.scrollIntoView();
}

const nav = document.querySelector('nav');
new ResizeObserver(() => document.documentElement.style.setProperty('--bar', nav.offsetHeight + 'px')).observe(nav);

let wait;
field.addEventListener('input', () => { clearTimeout(wait); wait = setTimeout(filter, 120); });
addEventListener('keydown', event => {
  if (event.key === '/' && event.target !== field) { event.preventDefault(); field.focus(); }
});
addEventListener('hashchange', reveal);
addEventListener('click', event => {
  if (event.target.closest('a')?.getAttribute('href') === location.hash) reveal();
});
addEventListener('toggle', event => { if (event.target.open) draw(event.target); }, true);
document.querySelectorAll('details[open]').forEach(draw);
reveal();
"#;
