//! The page that `rvtl page` prints: HTML, its style and its script, which reads what stands behind it.

/// The page up to where a stream or an order follows, as text that nothing ends (HTML Living Standard, 13.2.5.5: behind
/// `<plaintext>` all is text). It asks for nothing from outside.
pub const PAGE: &[u8] = b"<!DOCTYPE html>
<html lang='en'>
<meta charset='utf-8'>
<meta name='viewport' content='width=device-width, initial-scale=1'>
<title>rvtl: a run, event by event</title>
<style>
:root{--ground:#fff;--panel:#f6f8fa;--ink:#1b1f24;--faint:#6e7781;--rule:#d8dee4;--mark:#fff3c4;--on:#dbeafe;--branch:#3d8bd4;--trunk:#2da44e;--dirty:#cf222e;
--a:#0b62c4;--b:#b35900;--c:#8250df;--d:#1a7f37;--e:#bf3989;--wait:#8a6100;color-scheme:light dark}
@media (prefers-color-scheme:dark){:root{--ground:#0d1117;--panel:#161b22;--ink:#e6edf3;--faint:#9198a1;--rule:#30363d;--mark:#574a12;--on:#1d3557;--branch:#58a6ff;--trunk:#3fb950;
--dirty:#ff7b72;--a:#6cb6ff;--b:#f0a04b;--c:#c297ff;--d:#57d364;--e:#ff7eb6;--wait:#e3b341}}
*{box-sizing:border-box}
body{margin:0;height:100vh;display:flex;flex-direction:column;background:var(--ground);color:var(--ink);font:12px 'DejaVu Sans Mono',Menlo,Consolas,monospace}
header{display:flex;flex-wrap:wrap;gap:6px 14px;align-items:center;padding:6px 10px;border-bottom:1px solid var(--rule)}
header b{font-size:13px}
input,button,select{font:inherit;color:inherit;background:var(--panel);border:1px solid var(--rule);border-radius:4px;padding:2px 6px}
main{flex:1;display:flex;min-height:0}
#chart{flex:1;overflow:auto;min-width:0;outline:none}
#chart:focus-visible{box-shadow:inset 3px 0 var(--branch)}
#held{width:470px;overflow:auto;border-left:1px solid var(--rule);background:var(--panel);padding:8px 10px}
h2{font-size:12px;margin:10px 0 3px;color:var(--faint);font-weight:normal;text-transform:uppercase;letter-spacing:1px}
h2:first-child{margin-top:0}
table{border-collapse:collapse}td{padding:0 8px 0 0;vertical-align:top;white-space:pre}td.bytes{white-space:normal}
pre{margin:0;white-space:pre-wrap;overflow-wrap:anywhere}
.new{background:var(--mark)}.faint{color:var(--faint)}.warn{background:var(--dirty);color:var(--ground);padding:4px 10px}
.Branch{color:var(--branch)}.Trunk{color:var(--trunk)}.dirty{color:var(--dirty)}
svg{display:block}
svg text{font:11px 'DejaVu Sans Mono',Menlo,Consolas,monospace;fill:var(--ink);white-space:pre;pointer-events:none}
#rows text{paint-order:stroke;stroke:var(--ground);stroke-width:3px;stroke-linejoin:round}#rows text.here,#rows .box text{stroke:var(--on)}#rows .picked text{stroke:var(--mark)}#rows .picked rect{fill:var(--mark)}
svg text.faint{fill:var(--faint)}
svg .on{fill:var(--on)}svg .lane{stroke:var(--rule)}#rows{cursor:pointer}
svg path{fill:none;stroke-width:1.4}
path.A{stroke:var(--a)}path.B{stroke:var(--b)}path.C{stroke:var(--c)}path.D{stroke:var(--d)}path.E{stroke:var(--e)}path.wait{stroke:var(--wait)}
svg text.A{fill:var(--a)}svg text.B{fill:var(--b)}svg text.C{fill:var(--c)}svg text.D{fill:var(--d)}svg text.E{fill:var(--e)}svg text.wait{fill:var(--wait)}
rect.Branch,i.Branch{fill:var(--branch);background:var(--branch)}rect.Trunk,i.Trunk{fill:var(--trunk);background:var(--trunk)}
rect.dirty,i.dirty{fill:var(--dirty);background:var(--dirty)}rect.wait,i.wait{fill:var(--wait);background:var(--wait)}
rect.idle,i.idle{fill:var(--rule);background:var(--rule)}rect.probing,i.probing{fill:var(--b);background:var(--b)}rect.granted,i.granted{fill:var(--d);background:var(--d)}
path.rf{stroke:var(--a)}path.co{stroke:var(--b)}path.fr{stroke:var(--c)}path.ppo{stroke:var(--faint)}path.asked{stroke:var(--dirty)}
svg tspan.rf{fill:var(--a)}svg tspan.co{fill:var(--b)}svg tspan.fr{fill:var(--c)}svg tspan.ppo{fill:var(--faint)}svg text.asked{fill:var(--dirty)}
i.rf{background:var(--a)}i.co{background:var(--b)}i.fr{background:var(--c)}i.ppo{background:var(--faint)}i.asked{background:var(--dirty)}
rect.early{stroke:var(--dirty);stroke-width:1.5}
.dim{opacity:.15}.dashed{stroke-dasharray:4 3}path.round{stroke-width:2.6}
#legend i{display:inline-block;width:9px;height:9px;margin:0 4px 0 9px}
#heads{position:sticky;top:0;background:var(--ground);z-index:1}
</style>
<body>
<header><b id='title'>rvtl</b>
<span><button id='back' title='Arrow up'>&uarr;</button> <button id='next' title='Arrow down'>&darr;</button> <span id='where'></span></span>
<label>find <input id='find' size='18' placeholder='/  text of an event'></label><span id='found' class='faint'></span>
<label id='linesof'>line <select id='line'></select></label>
<span id='legend'></span><span class='faint'>keys: arrows, Page, Home, End, / to find</span></header>
<div id='warn'></div>
<main><div id='chart' tabindex='0' aria-label='events'></div><div id='held' aria-live='polite'></div></main>
<script>
'use strict';
const NAMES = 'zero ra sp gp tp t0 t1 t2 s0 s1 a0 a1 a2 a3 a4 a5 a6 a7 s2 s3 s4 s5 s6 s7 s8 s9 s10 s11 t3 t4 t5 t6'.split(' ');
const SVG = 'http://www.w3.org/2000/svg', ROW = 18, KEEP = 256, WIDE = 1600, LETTER = 6.63, LEFT = 46, NOTES = 290, NL = String.fromCharCode(10);
const word = n => '0x' + (n >>> 0).toString(16).padStart(8, '0');
const by = id => document.getElementById(id);
const html = s => s.replaceAll('&', '&amp;').replaceAll('<', '&lt;');
const cut = (text, room) => text.length <= room ? text : room < 4 ? '' : text.slice(0, room - 2) + '..';
const legend = items => { by('legend').innerHTML = items.map(([how, text]) => '<i class=' + how + '></i>' + text).join(''); };
function el(name, at, text) {
  const made = document.createElementNS(SVG, name);
  for (const key in at) made.setAttribute(key, at[key]);
  if (text !== undefined) made.textContent = text;
  return made;
}

// What an instruction does to registers, and where: the ISA's RV32I, M and A. LOADED is what memory gave.
function execute(pc, w, x, loaded, sc) {
  const op = w & 127, rd = w >> 7 & 31, f3 = w >> 12 & 7, a = x[w >> 15 & 31], b = x[w >> 20 & 31], f7 = w >>> 25;
  const imm = w >> 20, simm = (w >> 25 << 5) | rd, got = {next: pc + 4 >>> 0, rd: rd};
  const sign = (v, bits) => v << 32 - bits >> 32 - bits, u = v => v >>> 0;
  const alu = (f, p, q, alt) => [alt ? p - q | 0 : p + q | 0, p << (q & 31), +(p < q), +(u(p) < u(q)), p ^ q, alt ? p >> (q & 31) : u(p) >>> (q & 31), p | q, p & q][f];
  if (op === 0x37) got.value = w & ~4095;
  else if (op === 0x17) got.value = pc + (w & ~4095) | 0;
  else if (op === 0x6f) {
    got.value = pc + 4 | 0;
    got.next = u(pc + ((w >> 31 << 20) | (w & 0xff000) | (w >> 9 & 0x800) | (w >> 20 & 0x7fe)));
  } else if (op === 0x67) { got.value = pc + 4 | 0; got.next = u(a + imm & ~1); }
  else if (op === 0x63) {
    const taken = [a === b, a !== b, 0, 0, a < b, a >= b, u(a) < u(b), u(a) >= u(b)][f3];
    if (taken) got.next = u(pc + ((w >> 31 << 12) | (w << 4 & 0x800) | (w >> 20 & 0x7e0) | (w >> 7 & 0x1e)));
  } else if (op === 0x03) {
    got.address = u(a + imm);
    got.value = [sign(loaded, 8), sign(loaded, 16), loaded | 0, 0, loaded & 255, loaded & 65535][f3];
  } else if (op === 0x23) { got.address = u(a + simm); got.size = 1 << f3; got.stored = u(b); }
  else if (op === 0x13) got.value = alu(f3, a, f3 === 1 || f3 === 5 ? w >> 20 & 31 : imm, f3 === 5 && f7 === 32);
  else if (op === 0x33 && f7 === 1) {
    const high = (p, q) => Number(BigInt.asIntN(32, p * q >> 32n)), s = BigInt, v = n => BigInt(u(n));
    got.value = [() => Math.imul(a, b), () => high(s(a), s(b)), () => high(s(a), v(b)), () => high(v(a), v(b)),
      () => b === 0 ? -1 : a / b | 0, () => b === 0 ? -1 : Math.floor(u(a) / u(b)) | 0,
      () => b === 0 ? a : b === -1 ? 0 : a % b, () => b === 0 ? a : u(a) % u(b) | 0][f3]();
  } else if (op === 0x33) got.value = alu(f3, a, b, f7 === 32);
  else if (op === 0x2f) {
    const kind = w >>> 27, l = loaded | 0;
    got.address = u(a); got.size = 4;
    if (kind === 2) { got.value = l; got.size = 0; got.reserves = true; }
    else if (kind === 3) { got.value = +(sc !== 'ok'); got.ends = true; if (sc === 'ok') got.stored = u(b); else got.size = 0; }
    else {
      got.value = l;
      got.stored = u({1: b, 0: l + b, 4: l ^ b, 12: l & b, 8: l | b, 16: Math.min(l, b), 20: Math.max(l, b), 24: Math.min(u(l), u(b)), 28: Math.max(u(l), u(b))}[kind]);
    }
  }
  if (rd === 0) delete got.value;
  return got;
}

// The text of a run: its head, its events with their lines, and what stands behind them.
function parse(text) {
  const lines = text.split(NL).filter(l => l !== ''), run = {events: [], image: new Map(), ends: [], held: [], size: 16};
  run.kind = lines.length ? lines[0].split(' ')[0] : '';
  if (run.kind !== 'rvtl-stream') { run.lines = lines.slice(1); return run; }
  for (const line of lines.slice(1)) {
    const kind = line[0], w = line.split(' ');
    if (kind === 'T') { run.harts = +w[1]; run.entry = Number(w[3]); if (w[4]) run.size = +w[4]; }
    else if (kind === 'I') run.image.set(Number(w[1]), w[2]);
    else if (kind === 'E') run.events.push({line: +w[1], text: line, lines: []});
    else if (kind === 'R' || kind === 'P' || kind === 'M' || kind === 'O') run.events[run.events.length - 1].lines.push(line);
    else if (kind === 'H') run.ends.push(line);
    else run.held.push(line);
  }
  return run;
}

const copyMaps = list => list.map(map => new Map(map));
function opening(run) {
  const now = {harts: [], lines: [], asks: [], gives: [], queues: [], notes: [], awaited: [], grants: new Map(), memory: new Map()};
  for (let h = 0; h < run.harts; h++) {
    const x = new Int32Array(32);
    x[10] = h; x[11] = run.harts;
    now.harts.push({pc: run.entry, x, list: 0, waits: [], writes: [], reserved: null, status: 'run', put: []});
    for (const all of [now.lines, now.asks, now.gives, now.notes, now.awaited]) all.push(new Map());
    now.queues.push({A: [], B: [], C: [], D: [], E: []});
  }
  return now;
}
function copied(now) {
  return {harts: now.harts.map(h => ({...h, x: h.x.slice(), waits: h.waits.slice(), put: h.put.slice()})),
    lines: now.lines.map(m => new Map([...m].map(([k, v]) => [k, {...v}]))), asks: copyMaps(now.asks), gives: copyMaps(now.gives),
    queues: now.queues.map(q => ({A: q.A.slice(), B: q.B.slice(), C: q.C.slice(), D: q.D.slice(), E: q.E.slice()})),
    notes: copyMaps(now.notes), awaited: copyMaps(now.awaited), grants: new Map(now.grants), memory: new Map(now.memory)};
}
function bytesPut(data, at, size, value) {
  let made = data;
  for (let i = 0; i < size; i++) {
    const place = 2 * (at + i);
    made = made.slice(0, place) + (value >>> 8 * i & 255).toString(16).padStart(2, '0') + made.slice(place + 2);
  }
  return made;
}

// The instruction of an R line, and the name that it has for the address it accesses, if it has one.
const textOf = line => (line.split(' ; ')[1] || '').replace(/^<[^>]*> /, '');
function accessed(line) {
  const name = (textOf(line).split(': ')[1] || '').split(' = ')[0].split(' fails')[0];
  return name.startsWith('0x') ? '' : name;
}

// A hart's copy of a line is this from now on; none where it is undefined.
function keep(now, h, line, copy) {
  if (copy) now.lines[h].set(line, copy); else now.lines[h].delete(line);
  if (now.changed) now.changed.push([h, line]);
}

// A message's line of the stream, as sent or taken.
function pass(now, run, w) {
  const [, way, channel, hart, name, address, change] = w, h = +hart, line = Number(address), data = w[7], queue = now.queues[h][channel];
  if (way === 's') queue.push(w.slice(4, 7).join(' ')); else queue.shift();
  if (way === 's' && channel === 'A') now.asks[h].set(line, change);
  if (way === 's' && channel === 'B') now.awaited[h].set(line, change);
  if (way === 't' && channel === 'A') now.grants.set(line, {hart: h, grow: change, done: false});
  if (way === 't' && channel === 'E') now.grants.delete(line);
  if (channel === 'D' && name === 'ReleaseAck') { if (way === 't') now.gives[h].delete(line); }
  else if (channel === 'D') {
    const perm = change === 'toT' ? 'Trunk' : 'Branch';
    if (way === 's') { now.notes[h].set(line, perm); const grant = now.grants.get(line); if (grant) now.grants.set(line, {...grant, done: true}); }
    else { const old = now.lines[h].get(line); keep(now, h, line, {perm, dirty: false, data: data || old && old.data || ''}); now.asks[h].delete(line); }
  }
  if (channel === 'C') {
    const left = change.slice(-1), perm = {N: 'Nothing', B: 'Branch', T: 'Trunk'}[left];
    if (way === 's') {
      if (name.startsWith('Release')) now.gives[h].set(line, change);
      const old = now.lines[h].get(line);
      // a reservation of a word of the line lasts while the copy is Trunk
      if (left !== 'T' && now.harts[h].reserved !== null && Math.floor(now.harts[h].reserved / run.size) * run.size === line) now.harts[h].reserved = null;
      if (left === 'N') keep(now, h, line);
      else if (old) keep(now, h, line, {perm, dirty: left === 'T' && old.dirty, data: old.data});
    } else {
      if (perm === 'Nothing') now.notes[h].delete(line); else now.notes[h].set(line, perm);
      if (name.startsWith('ProbeAck')) now.awaited[h].delete(line);
      if (data) now.memory.set(line, data);
    }
  }
}

// What an event did, line by line.
function follow(now, run, event) {
  for (const line of event.lines) {
    const w = line.split(' '), h = +w[1], hart = now.harts[h];
    if (w[0] === 'R') {
      const got = execute(Number(w[2]), Number(w[3]) | 0, hart.x, w[4] === '-' ? 0 : Number(w[4]) | 0, w[5]);
      if (got.value !== undefined) hart.x[got.rd] = got.value;
      hart.pc = got.next;
      if (got.reserves) hart.reserved = got.address;
      if (got.ends) hart.reserved = null;
      if (got.address !== undefined && now.accesses) now.accesses.push([h, got.address, accessed(line)]);
      if (got.stored !== undefined) hart.waits.push({place: hart.list, address: got.address, size: got.size, value: got.stored, name: accessed(line), text: textOf(line)});
      hart.list++;
    } else if (w[0] === 'P') {
      const at = hart.waits.findIndex(it => it.place === +w[2]);
      if (at < 0) continue;
      const [store] = hart.waits.splice(at, 1);
      if (now.accesses) { now.accesses.push([h, store.address, store.name]); now.drained.push(store); }
      const line = Math.floor(store.address / run.size) * run.size, copy = now.lines[h].get(line);
      if (copy) keep(now, h, line, {perm: copy.perm, dirty: true, data: bytesPut(copy.data, store.address - line, store.size, store.value)});
    } else if (w[0] === 'M') pass(now, run, w);
    else if (w[0] === 'O') hart.put.push(w[2]);
  }
  const w = event.text.split(' '), end = w.findIndex(it => it === 'Stopped' || it === 'Exited');
  if (end > 0) now.harts[+w[3]].status = (w[end] === 'Exited' ? 'exit ' : 'stop ') + w[end + 1];
}
function stateAt(run, index) {
  const from = Math.floor(index / KEEP);
  const now = copied(run.kept[from]);
  for (let i = from * KEEP; i < index; i++) follow(now, run, run.events[i]);
  return now;
}

// The state in the words of rvtl's own lines, but stores that wait, which it tells by group.
function told(run, now) {
  const lines = [], sorted = map => [...map].sort((a, b) => a[0] - b[0]);
  now.harts.forEach((hart, h) => {
    lines.push('X ' + h + ' pc ' + word(hart.pc));
    hart.x.forEach((v, i) => { if (v) lines.push('X ' + h + ' ' + NAMES[i] + ' ' + word(v)); });
    if (hart.reserved !== null) lines.push('L ' + h + ' ' + word(hart.reserved));
    for (const [line, c] of sorted(now.lines[h])) lines.push('C ' + h + ' ' + word(line) + ' ' + (c.dirty ? 'dirty ' : '') + c.perm + (c.data ? ' ' + c.data : ''));
    for (const [line] of sorted(now.asks[h])) lines.push('A ' + h + ' ' + word(line));
    for (const [line] of sorted(now.gives[h])) lines.push('U ' + h + ' ' + word(line));
    for (const channel of 'ABCDE') for (const it of now.queues[h][channel]) lines.push('Q ' + channel + ' ' + h + ' ' + it);
    for (const line of new Set([...now.notes[h].keys(), ...now.awaited[h].keys()])) lines.push('N ' + h + ' ' + word(line) + ' ' + (now.notes[h].get(line) || 'Nothing') + (now.awaited[h].has(line) ? ' awaited' : ''));
  });
  for (const [line, g] of now.grants) lines.push('G ' + g.hart + ' ' + word(line) + (g.done ? ' Granted' : ' Probing ' + g.grow));
  for (const [line, data] of now.memory) if (data !== (run.image.get(line) || '0'.repeat(2 * run.size))) lines.push('D ' + word(line) + ' ' + data);
  return lines;
}
function differences(run) {
  if (!run.held.length) return [];
  const now = stateAt(run, run.events.length), kinds = 'XLCAUQNGD';
  const theirs = new Set(run.held.filter(l => kinds.includes(l[0]))), ours = new Set(told(run, now));
  return [...ours].filter(l => !theirs.has(l)).concat([...theirs].filter(l => !ours.has(l)));
}

// Since which row something is as it is, by a key; each span is listed once it changes or ends, and at last they are sorted by where they begin.
function spans(list) {
  const open = new Map();
  return {
    set(key, row, it) {
      const old = open.get(key);
      if (old && it && old.how === it.how && old.data === it.data) return;
      if (old) { old.to = row; list.push(old); open.delete(key); }
      if (it) open.set(key, {...it, from: row, lasts: false});
    },
    keys: h => [...open.keys()].filter(key => key.startsWith(h + ' ')),
    close(row) { for (const it of open.values()) { it.to = row; it.lasts = true; list.push(it); } list.sort((a, b) => a.from - b.from); }
  };
}

// Stores that wait at one time stand beside each other, up to eight.
function columns(run) {
  const ends = [];
  run.columns = [];
  for (let h = 0; h < run.harts; h++) { ends.push([]); run.columns.push(0); }
  for (const it of run.stores) {
    let column = ends[it.h].findIndex(end => end <= it.from);
    if (column < 0) column = Math.min(7, ends[it.h].length);
    ends[it.h][column] = it.to;
    it.column = column;
    run.columns[it.h] = Math.max(run.columns[it.h], column + 1);
  }
}

// The names by which instructions access a line: where its first byte has one, that, else the symbols within it.
function nameLine(run, line, address, name) {
  const parts = name.split('+'), start = address - Number(parts[1] || 0), from = line - start;
  if (!run.named.has(line)) run.named.set(line, new Set());
  const names = run.named.get(line);
  if (names.size < 4) names.add(parts[0] + (from > 0 ? '+0x' + from.toString(16) : ''));
}
const lineOf = (run, address) => Math.floor(address / run.size) * run.size;
const nameOf = line => [...(run.named.get(line) || [])].join(', ');

function prepareMessage(run, queues, event, w) {
  const key = w[2] + w[3], at = Number(w[5]);
  run.touched.add(at);
  if (!queues.has(key)) queues.set(key, []);
  if (w[1] === 't') { const message = queues.get(key).shift(); if (message) message.to = event.row; return; }
  const message = {from: event.row, to: null, channel: w[2], h: +w[3], line: at, text: w[4] + (w[6] ? ' ' + w[6] : '')};
  queues.get(key).push(message); run.messages.push(message);
}

// Rows are the events that changed something. Spans: how long a cache held a line and with which bytes, what the manager did for a line,
// and how long a store waited. Messages, from sending to taking.
function prepare(run) {
  const now = opening(run), queues = new Map(), bars = spans(run.bars = []), states = spans(run.states = []), stores = spans(run.stores = []);
  Object.assign(run, {kept: [copied(now)], rows: [], messages: [], touched: new Set(), named: new Map()});
  Object.assign(now, {changed: [], accesses: [], drained: []});
  run.events.forEach((event, i) => {
    follow(now, run, event);
    const changed = now.changed.splice(0), accesses = now.accesses.splice(0), drained = now.drained.splice(0);
    if ((i + 1) % KEEP === 0) run.kept.push(copied(now));
    const ends = event.text.includes('Stopped') || event.text.includes('Exited');
    if (!event.lines.length && !ends && !event.text.includes('Evicted')) { event.row = run.rows.length - 1; return; }
    event.row = run.rows.length; run.rows.push(i);
    event.touches = accesses.map(([h, address]) => [h, lineOf(run, address)]);
    if (event.text.split(' ')[2] === 'drain') event.drained = drained;
    for (const [, address, name] of accesses) if (name) nameLine(run, lineOf(run, address), address, name);
    const harts = new Set();
    for (const line of event.lines) {
      const w = line.split(' ');
      if (w[0] === 'R' || w[0] === 'P') harts.add(+w[1]);
      if (w[0] !== 'M') continue;
      prepareMessage(run, queues, event, w);
      const line5 = Number(w[5]), grant = now.grants.get(line5);
      states.set('m ' + w[5], event.row, {line: line5, how: !grant ? 'idle' : grant.done ? 'granted' : 'probing', h: grant && grant.hart, data: grant ? grant.hart + grant.grow : now.memory.get(line5)});
    }
    for (const h of harts) {
      const waits = new Map(now.harts[h].waits.map(s => [h + ' ' + s.place, s]));
      for (const key of stores.keys(h)) if (!waits.has(key)) stores.set(key, event.row);
      for (const [key, s] of waits) stores.set(key, event.row, {h, how: 'wait', store: s});
    }
    for (const [h, line] of changed) { const c = now.lines[h].get(line); bars.set(h + ' ' + line, event.row, c && {h, line, how: c.dirty ? 'dirty' : c.perm, data: c.data}); }
  });
  for (const all of [bars, states, stores]) all.close(run.rows.length);
  columns(run);
}

let run, at = 0, only = null, lanes = [], moves = null;
const shown = line => only === null || line === only;
const instruction = event => {
  const w = event.text.split(' '), all = event.lines.filter(l => l[0] === 'R');
  if (all.length > 1) return all.length + ' instructions';
  if (all.length) return textOf(all[0]);
  if (event.drained && event.drained.length) return 'drains ' + (event.drained[0].name || w[4]);
  return w[2] === 'step' ? event.text.split(' ; ')[0].split(' ').slice(4).join(' ').toLowerCase().replace('missed 0x', 'asks for 0x') : w[2] + ' ' + w[4] + (event.text.includes(' Missed ') ? ' asks' : '');
};

// The harts that do something in an event: with the line that is drawn, where it is one alone.
function doers(event, harts) {
  const w = event.text.split(' ');
  if (only === null && w[2] !== 'deliver') harts.add(+w[3]);
  for (const [h, line] of event.touches) if (shown(line)) harts.add(h);
  for (const line of event.lines) if (line[0] === 'M') { const m = line.split(' '); if (shown(Number(m[5]))) harts.add(+m[3]); }
}

// Where lanes stand while these rows are drawn: harts that do nothing there are narrow, and all together fit the window, or WIDE. What is left
// of it then is for harts that do something with another line than the one that is drawn.
function layOut(first, last) {
  const busy = new Set(), others = new Set(), to = Math.min(run.rows.length, last + 32 - last % 32);
  for (let row = first - first % 32; row < to; row++) {
    const event = run.events[run.rows[row]], w = event.text.split(' ');
    doers(event, busy);
    if (w[2] !== 'deliver') others.add(+w[3]);
  }
  for (const h of busy) others.delete(h);
  const zones = run.columns.map(n => 34 + (n ? 5 * n + 8 : 0)), state = only === null ? 34 : 100;
  const narrow = zones.reduce((sum, zone, h) => sum + (busy.has(h) ? 0 : zone + 16), 0), fixed = LEFT + state + 20 + NOTES;
  const room = Math.min(WIDE, by('chart').clientWidth - 16) - fixed - narrow, each = Math.max(140, Math.min(330, Math.floor(room / Math.max(1, busy.size))));
  const more = Math.min(250, Math.floor((room - each * busy.size) / Math.max(1, others.size)));
  let x = LEFT;
  lanes = zones.map((zone, h) => {
    const isWide = busy.has(h) || others.has(h) && more > 90, wide = busy.has(h) ? each : zone + 16 + (isWide ? more : 0), lane = {x, isWide, cache: x + wide - 32, waits: x + wide - zone, room: Math.floor((wide - zone - 2) / LETTER)};
    x += wide;
    return lane;
  });
  lanes.manager = x + 12; lanes.notes = x + 20 + state; lanes.wide = lanes.notes + NOTES - 4;
}
function drawHeads() {
  const heads = by('heads'), parts = [el('text', {class: 'faint', x: 4, y: 14}, 'line')];
  lanes.forEach((lane, h) => {
    parts.push(el('text', {x: lane.x, y: 14}, lane.isWide ? 'hart ' + h : String(h)));
    if (lane.isWide) parts.push(el('text', {class: 'faint', x: lane.cache - 7, y: 14}, 'cache'));
    if (lane.isWide && run.columns[h]) parts.push(el('text', {class: 'wait', x: lane.cache - 14 - 5 * LETTER, y: 14}, 'waits'));
  });
  parts.push(el('text', {x: lanes.manager - 8, y: 14}, 'manager' + (only === null ? '' : ' of ' + word(only))));
  heads.setAttribute('width', lanes.wide); heads.replaceChildren(...parts);
}

// Lines of the script, from which to which a span lasts.
const lineAt = row => row < run.rows.length ? run.events[run.rows[row]].line : 'the end';
const lasting = it => 'from line ' + lineAt(it.from) + (it.lasts ? ' to the end' : ' to line ' + lineAt(it.to));
const bytesOf = data => data.replace(/(.{8})/g, '$1 ').trim();
const middle = row => row * ROW + 9;
function bar(it, x, wide, first, last, title) {
  const from = Math.max(it.from, first), to = Math.min(it.to, last), made = el('rect', {class: it.how, x, y: middle(from), width: wide, height: Math.max(3, (to - from) * ROW - (it.to <= last && !it.lasts ? 1 : 0))});
  made.append(el('title', {}, title));
  return made;
}
function crossed(how, x, title) {
  const y = middle(run.rows.length), mark = el('path', {class: how + ' mark', d: 'M' + (x - 4) + ' ' + (y - 4) + ' l8 8 m0 -8 l-8 8', style: 'stroke-width:2;pointer-events:all'});
  mark.append(el('title', {}, title));
  return mark;
}
function drawBars(parts, first, last) {
  const drawn = only === null ? [...run.touched].slice(0, 4) : [only];
  for (const it of run.bars) {
    if (it.from > last) break;
    const place = drawn.indexOf(it.line);
    if (place < 0 || it.to < first) continue;
    const text = [word(it.line) + ' ' + nameOf(it.line), 'hart ' + it.h + ' holds it: ' + (it.how === 'dirty' ? 'dirty Trunk ' : it.how + ' ') + lasting(it), bytesOf(it.data)].join(NL);
    parts.append(bar(it, lanes[it.h].cache + 3 + 6 * place, 4, first, last, text));
  }
  for (const it of run.states) {
    if (it.from > last) break;
    const place = drawn.indexOf(it.line), one = only !== null;
    if (place < 0 || it.to < first) continue;
    const text = it.how === 'idle' ? 'idle' : it.how + ' ' + it.h, memory = it.how === 'idle' ? bytesOf(it.data || run.image.get(it.line) || '0'.repeat(2 * run.size)) : '';
    parts.append(bar(it, lanes.manager + 3 + 6 * place, one ? 10 : 4, first, last, [word(it.line) + ' ' + nameOf(it.line), 'the manager: ' + (it.how === 'idle' ? 'idle ' : it.how + ' for hart ' + it.h + ' ') + lasting(it), memory && 'memory has ' + memory].join(NL)));
    if (one && it.from >= first) parts.append(el('text', {class: it.how === 'probing' ? 'B' : it.how === 'granted' ? 'D' : 'faint', x: lanes.manager + 18, y: it.from * ROW + 13}, text));
  }
}
function drawStores(parts, first, last) {
  for (const it of run.stores) {
    if (it.from > last) break;
    const s = it.store, x = lanes[it.h].waits + 4 + 5 * it.column;
    if (!shown(lineOf(run, s.address)) || it.to < first) continue;
    const text = it.h + ':' + s.place + ' ' + s.text + NL + word(s.address) + ' = 0x' + s.value.toString(16).padStart(8, '0').slice(8 - 2 * s.size) + NL + 'waits in the store buffer ' + lasting(it) + (it.lasts ? ': it is never drained' : ', which drains it');
    parts.append(bar(it, x, 4, first, last, text));
    if (it.lasts && last >= run.rows.length) parts.append(crossed('wait', x + 2, text));
  }
}
function drawMessages(parts, first, last, current) {
  const notes = new Map(), end = run.rows.length, never = [];
  for (const m of run.messages) {
    if (m.from > last) break;
    if (!shown(m.line)) continue;
    const to = m.to === null ? end : m.to, down = 'ACE'.includes(m.channel), cache = lanes[m.h].cache, x1 = down ? cache : lanes.manager, x2 = down ? lanes.manager : cache;
    if (m.to === null) never.push(m.channel + ' ' + m.h);
    if (to < first) continue;
    parts.append(el('path', {class: m.channel + (m.to === null ? ' dashed' : ''), d: 'M' + x1 + ' ' + (middle(m.from) + 2) + ' L' + x2 + ' ' + (middle(to) - (m.to === null ? 0 : 2))}));
    if (m.to === null && last >= end) parts.append(crossed(m.channel, x2, m.channel + ' ' + m.h + ' ' + m.text + ' ' + word(m.line) + ', sent at line ' + lineAt(m.from) + ', is never taken'));
    const key = m.from + ' ' + m.channel + ' ' + m.text + ' ' + m.line;
    if (m.from >= first && notes.has(key)) notes.get(key).harts.push(m.h);
    else if (m.from >= first) notes.set(key, {m, harts: [m.h]});
  }
  const used = new Map();
  for (const {m, harts} of notes.values()) {
    const x = lanes.notes + (used.get(m.from) || 0), text = m.channel + ' ' + harts.join(',') + ' ' + m.text + (only === null ? ' ' + word(m.line) : '');
    parts.append(el('text', {class: m.channel + (m.from === current ? ' here' : ''), x, y: m.from * ROW + 13}, text));
    used.set(m.from, (used.get(m.from) || 0) + (text.length + 2) * LETTER);
  }
  if (last >= end && never.length) parts.append(el('text', {class: 'faint', x: lanes.notes, y: end * ROW + 13}, cut('never taken: ' + never.join(', '), Math.floor(NOTES / LETTER))));
}
function draw() {
  const box = by('chart'), svg = by('rows'), parts = document.createDocumentFragment(), end = run.rows.length;
  const first = Math.max(0, Math.floor(box.scrollTop / ROW) - 4), last = Math.min(end, first + Math.ceil(box.clientHeight / ROW) + 8);
  layOut(first, last); drawHeads();
  const current = at ? run.events[at - 1].row : -1;
  if (current >= first && current < last) parts.append(el('rect', {class: 'on', x: 0, y: current * ROW, width: lanes.wide, height: ROW}));
  for (const x of [...lanes.map(lane => lane.cache), lanes.manager]) parts.append(el('line', {class: 'lane', x1: x, x2: x, y1: first * ROW, y2: last * ROW + 9}));
  drawBars(parts, first, last); drawStores(parts, first, last); drawMessages(parts, first, last, current);
  for (let row = first; row < last; row++) {
    const event = run.events[run.rows[row]], w = event.text.split(' '), lane = lanes[+w[3]], here = row === current ? ' here' : '', y = row * ROW + 13;
    parts.append(el('text', {class: 'faint' + here, x: 4, y}, String(event.line)));
    if (w[2] !== 'deliver') parts.append(el('text', {class: here, x: lane.x, y}, lane.isWide ? cut(instruction(event), lane.room) : '-'));
  }
  svg.setAttribute('width', lanes.wide); svg.replaceChildren(parts);
}
function section(name, rows) { return rows.length ? '<h2>' + name + '</h2><table>' + rows.join('') + '</table>' : ''; }
function row(cells, isNew) { return '<tr' + (isNew ? ' class=new' : '') + '>' + cells.map(c => '<td' + (c.length > 30 && c[0] !== '<' ? ' class=bytes' : '') + '>' + c + '</td>').join('') + '</tr>'; }
function hold() {
  const now = stateAt(run, at), was = stateAt(run, Math.max(0, at - 1)), event = at ? run.events[at - 1] : null, parts = [];
  parts.push('<h2>' + (event ? 'event ' + at + ' of ' + run.events.length + ', line ' + event.line : 'before the first event') + '</h2><pre>');
  if (event) parts.push(html([event.text, ...event.lines.slice(0, 40)].join(NL)) + (event.lines.length > 40 ? ' ..' : ''));
  parts.push('</pre>');
  const words = event ? event.text.split(' ') : [], whose = words[2] === 'deliver' ? +words[4] : +words[3] || 0;
  for (const h of [whose, ...now.harts.keys()].filter((it, i) => i === 0 || it !== whose)) {
    const hart = now.harts[h], old = was.harts[h], cells = [row(['pc', word(hart.pc), html(run.names.get(hart.pc) || '')], hart.pc !== old.pc)];
    hart.x.forEach((v, i) => { if (v || v !== old.x[i]) cells.push(row([NAMES[i], word(v), '<span class=faint>' + v + '</span>'], v !== old.x[i])); });
    if (hart.reserved !== null) cells.push(row(['reserved', word(hart.reserved), ''], hart.reserved !== old.reserved));
    if (hart.put.length) cells.push(row(['put out', hart.put.join(' '), ''], hart.put.length !== old.put.length));
    parts.push(section('hart ' + h + ' ' + hart.status, cells));
    parts.push(section('its stores that wait', hart.waits.map(s => row([word(s.address), '= 0x' + s.value.toString(16).padStart(8, '0').slice(8 - 2 * s.size), h + ':' + s.place, html(s.name)], !old.waits.some(o => o.place === s.place)))));
    const held = [...now.lines[h]].map(([line, c]) => { const o = was.lines[h].get(line); return row([word(line), '<span class=' + (c.dirty ? 'dirty' : c.perm) + '>' + (c.dirty ? 'dirty ' : '') + c.perm + '</span>', bytesOf(c.data), html(nameOf(line))], !o || o.perm !== c.perm || o.data !== c.data || o.dirty !== c.dirty); });
    for (const [line, grow] of now.asks[h]) held.push(row([word(line), 'asked ' + grow, ''], !was.asks[h].has(line)));
    for (const [line, change] of now.gives[h]) held.push(row([word(line), 'gives up ' + change, ''], !was.gives[h].has(line)));
    parts.push(section('its cache', held));
  }
  const queued = [];
  now.queues.forEach((q, h) => { for (const c of 'ABCDE') q[c].forEach((m, i) => queued.push(row(['<span class=faint>' + c + ' ' + h + '</span>', html(m), i ? '' : 'next'], was.queues[h][c].length < i + 1))); });
  parts.push(section('messages on their way', queued));
  const known = [];
  now.notes.forEach((m, h) => { for (const line of new Set([...m.keys(), ...now.awaited[h].keys()])) {
    const perm = m.get(line) || 'Nothing';
    known.push([line, row([word(line), 'hart ' + h, '<span class=' + perm + '>' + perm + '</span>' + (now.awaited[h].has(line) ? ' awaited' : '')], was.notes[h].get(line) !== m.get(line) || was.awaited[h].has(line) !== now.awaited[h].has(line))]);
  } });
  for (const [line, g] of now.grants) known.push([line, row([word(line), 'hart ' + g.hart, (g.done ? 'granted, GrantAck awaited' : 'probing for ' + g.grow)], !was.grants.has(line) || was.grants.get(line).done !== g.done)]);
  parts.push(section('the manager', known.sort((a, b) => a[0] - b[0]).map(k => k[1])));
  parts.push(section('memory that changed', [...now.memory].filter(([line, d]) => d !== (run.image.get(line) || '0'.repeat(2 * run.size))).map(([line, d]) => row([word(line), bytesOf(d), ''], was.memory.get(line) !== d))));
  const places = now.harts.map(h => h.pc);
  parts.push(section('the program, as far as it ran', [...run.text].sort((a, b) => a[0] - b[0]).map(([pc, t]) => row([places.map((p, h) => p === pc ? '&gt;' + h : '').join('') || ' ', word(pc), html(t)], false))));
  if (at === run.events.length && run.ends.length) parts.push('<h2>how it ended</h2><pre>' + html(run.ends.join(NL)) + '</pre>');
  by('held').innerHTML = parts.join('');
}
function go(to) {
  at = Math.max(0, Math.min(run.events.length, to));
  const box = by('chart'), row = at ? run.events[at - 1].row : 0, y = row * ROW;
  if (y < box.scrollTop || y > box.scrollTop + box.clientHeight - 4 * ROW) box.scrollTop = y - box.clientHeight / 3;
  by('where').textContent = at + ' / ' + run.events.length;
  draw(); hold();
}
function step(way) {
  let to = at + way;
  while (to > 0 && to < run.events.length && run.rows[run.events[to - 1].row] !== to - 1) to += way;
  go(to);
}
function find(text, from) {
  const n = run.events.length;
  for (let i = 0; i < n; i++) {
    const event = run.events[(from + i) % n];
    if (event.text.includes(text) || event.lines.some(l => l.includes(text))) { go((from + i) % n + 1); return true; }
  }
  return false;
}
function keys(event) {
  if (event.target.tagName === 'INPUT' || event.target.tagName === 'SELECT') { if (event.key === 'Escape') by('chart').focus(); return; }
  const {go, step, last, high} = moves, page = Math.max(1, Math.floor(by('chart').clientHeight / high) - 2);
  const act = {ArrowDown: () => step(1), ArrowUp: () => step(-1), ArrowRight: () => step(1), ArrowLeft: () => step(-1), PageDown: () => go(at + page), PageUp: () => go(at - page),
    Home: () => go(0), End: () => go(last), '/': () => by('find').focus()}[event.key];
  if (act && !event.ctrlKey && !event.metaKey && !event.altKey) { event.preventDefault(); act(); }
}
// The header's buttons and search, the keys and the place that the page's address has behind a `#`.
function start(how, find) {
  moves = how;
  by('back').addEventListener('click', () => how.step(-1));
  by('next').addEventListener('click', () => how.step(1));
  by('find').addEventListener('keydown', e => { if (e.key === 'Enter') by('found').textContent = find(e.target.value) ? '' : 'nowhere'; });
  document.addEventListener('keydown', keys);
  by('chart').addEventListener('scroll', how.draw);
  window.addEventListener('resize', how.draw);
  by('chart').focus();
  const wanted = Number(location.hash.slice(1));
  how.go(Number.isInteger(wanted) && wanted > 0 ? wanted : 0);
}
function readText() {
  run.names = new Map(); run.text = new Map();
  for (const event of run.events) for (const line of event.lines) if (line[0] === 'R') {
    const w = line.split(' '), pc = Number(w[2]);
    if (run.text.has(pc)) continue;
    const text = (line.split(' ; ')[1] || word(Number(w[3]))).split(': ')[0];
    run.text.set(pc, text);
    if (text[0] === '<') run.names.set(pc, text.slice(0, text.indexOf('> ') + 1));
  }
}
function showRun() {
  prepare(run); readText();
  by('title').textContent = run.harts + (run.harts > 1 ? ' harts, ' : ' hart, ') + run.events.length + ' events';
  legend([['wait', 'store waits'], ['Branch', 'Branch'], ['Trunk', 'Trunk'], ['dirty', 'dirty'], ['idle', 'manager idle'], ['probing', 'probing'], ['granted', 'granted']]);
  const options = ['<option value=all>' + (run.touched.size > 4 ? 'the first four' : 'all') + '</option>'];
  for (const line of [...run.touched].sort((a, b) => a - b)) options.push('<option value=' + line + '>' + html((word(line) + ' ' + nameOf(line)).trim()) + '</option>');
  by('line').innerHTML = options.join('');
  by('line').addEventListener('change', e => { only = e.target.value === 'all' ? null : Number(e.target.value); draw(); });
  const svg = el('svg', {id: 'rows', height: run.rows.length * ROW + 40});
  svg.addEventListener('click', e => { const row = Math.floor((e.clientY - svg.getBoundingClientRect().top) / ROW); if (row < run.rows.length) go(run.rows[row] + 1); });
  by('chart').append(el('svg', {id: 'heads', height: 20}), svg);
  const wrong = differences(run);
  if (wrong.length) by('warn').innerHTML = '<div class=warn>This page follows the run otherwise than rvtl: ' + html(wrong.slice(0, 3).join(' | ')) + '</div>';
  start({go, step, draw, last: run.events.length, high: ROW}, text => find(text, at));
}
</script>
<script>
'use strict';
// The order of a trace: each hart's operations downwards, and arrows for where a load reads, for stores of the same bytes, and for what orders.
function orderOf(lines) {
  const got = {verdict: '', performed: '', ops: new Map(), lists: [], edges: [], order: [], overtakes: []}, edges = new Map();
  let last = null;
  for (const line of lines) {
    const [text, note] = line.split(' ; '), w = text.split(' ');
    if (w[0] === 'rvwmo' || w[0] === 'ztso') got.verdict = line;
    else if (w[0] === 'performed') got.performed = line;
    else if (w[0] === 'R') { last = {id: w[1], pc: w[2], position: w[3], note: note || '', access: '', name: '', lines: [line]}; got.ops.set(w[1], last); const h = +w[1].split(':')[0]; (got.lists[h] = got.lists[h] || []).push(last); }
    else if (w[0] === 'A') { const op = got.ops.get(w[1]); if (op) { op.access = text.split(' ').slice(2).join(' '); op.name = (note || '').replace(/^<(.*)>$/, '$1'); op.lines.push(line); } }
    else if (['rf', 'co', 'fr', 'ppo'].includes(w[0])) {
      const key = w.slice(0, 3).join(' '), edge = edges.get(key);
      if (!edge) edges.set(key, {kind: w[0], from: w[1], to: w[2], rules: w[0] === 'ppo' ? w[3] : '', lines: [line]});
      else { edge.lines.push(line); if (w[0] === 'ppo') edge.rules += ',' + w[3]; }
    }
    else if (w[0] === 'overtakes') got.overtakes.push(line);
    else if (w[0] === 'P') got.order.push(w[2]);
  }
  got.edges = [...edges.values()];
  return got;
}
// The arrows that an order keeps, from each operation: rf from another hart, co, fr, and preserved program order.
function keptArrows(o) {
  o.next = new Map();
  for (const e of o.edges) {
    if (e.from === 'image' || e.rules === '-' || e.kind === 'rf' && e.from.split(':')[0] === e.to.split(':')[0]) continue;
    if (!o.next.has(e.from)) o.next.set(e.from, []);
    o.next.get(e.from).push(e);
  }
  o.early = new Map(); o.late = new Map();
  for (const line of o.overtakes) {
    const [text, note] = line.split(' ; '), w = text.split(' '), pair = {second: w[1], first: w[2], note: (note || '').replace('to order them: ', '')};
    for (const [all, id] of [[o.early, pair.second], [o.late, pair.first]]) { if (!all.has(id)) all.set(id, []); all.get(id).push(pair); }
  }
}
function back(came, to) {
  const way = [];
  for (let step = came.get(to); step; step = came.get(step.from)) way.unshift(step);
  return way;
}
// The way from an operation to another that takes the fewest steps down a list that nothing orders, and then the fewest arrows.
function wayOf(o, from, to) {
  const came = new Map([[from, null]]);
  let level = [from];
  for (let asked = 0; level.length; asked++) {
    for (let i = 0; i < level.length; i++) for (const e of o.next.get(level[i]) || []) {
      if (came.has(e.to)) continue;
      came.set(e.to, e); level.push(e.to);
      if (e.to === to) return {asked, way: back(came, to)};
    }
    const later = [];
    for (const id of level) {
      const {h, i} = o.place.get(id), list = id === from ? [] : o.lists[h];
      for (let k = i + 1; k < list.length; k++) {
        const next = list[k].id;
        if (list[k].position === '-' || next === from || next === to) continue;
        if (came.has(next)) break;
        came.set(next, {kind: 'asked', from: id, to: next}); later.push(next);
      }
    }
    level = later;
  }
  return null;
}
// Of the first pairs the cycle that keeping one in program order would close, that asks the least else.
const PAIRS = 100;
function cycleOf(o, pairs) {
  let best = null;
  for (const pair of pairs.slice(0, PAIRS)) {
    const found = wayOf(o, pair.second, pair.first);
    if (found && (!best || found.asked < best.asked || found.asked === best.asked && found.way.length + 1 < best.way.length)) best = {asked: found.asked, way: [{kind: 'asked', from: pair.first, to: pair.second}, ...found.way]};
  }
  return best;
}
const opText = (o, id) => { const op = o.ops.get(id); return op ? op.note.replace(/^<[^>]*> /, '') + (op.access ? ': ' + accessText(op) : '') : ''; };
function cycleLines(o, cycle) {
  return cycle.way.map(e => {
    const pair = e.kind === 'asked' && (o.early.get(e.to) || []).find(it => it.first === e.from);
    const broken = o.verdict.endsWith(' ' + e.from + ' ' + e.to) && o.verdict.split(' fault ')[1].split(' ')[0];
    const why = broken ? 'rule ' + broken + ', broken' : e.kind === 'ppo' ? 'ppo, rule ' + e.rules : e.kind !== 'asked' ? e.kind : pair ? 'overtaken; ordered by ' + pair.note : 'so here, ordered by nothing drawn';
    return e.from + ' before ' + e.to + '  ' + why;
  });
}
function toldCycle(o, cycle) {
  const lines = cycleLines(o, cycle), ops = [...new Set(cycle.way.map(e => e.from))].map(id => id + ' ' + opText(o, id));
  return '<h2>program order would close this cycle</h2><pre>' + html(lines.join(NL)) + '</pre><pre class=faint>' + html(ops.join(NL)) + '</pre>';
}

const HIGH = 36;
let order = null, chosen = null, cycle = null;
const short = value => value.replace(/^0x0*(?=[0-9a-f])/, '0x');
function accessText(op) {
  const [kind, address, , read, written] = op.access.split(' ');
  return kind + ' ' + (op.name || address) + (read !== '-' ? ' = ' + short(read) : '') + (written !== '-' ? (read !== '-' ? ' -> ' : ' := ') + short(written) : '');
}
function layOrder(o) {
  const n = Math.max(1, o.lists.length), each = Math.max(190, Math.min(330, Math.floor((Math.min(WIDE, by('chart').clientWidth - 16) - 30) / n)));
  Object.assign(o, {each, box: each - 76, wide: Math.min(WIDE, n * each + 30)});
}
const spot = (o, id) => { const p = o.place.get(id); return p && {...p, x: 16 + p.h * o.each, y: 42 + p.i * HIGH}; };
const nameOfArrow = e => e.kind === 'ppo' ? 'ppo ' + e.rules : e.kind;
// An arrow, and what it is beside it: of arrows down one list all that lead from one operation to the other at once.
function arrow(o, e, how, all) {
  const p = spot(o, e.from), q = spot(o, e.to), side = Math.sign(q.x - p.x), x1 = p.x + (side < 0 ? -4 : o.box), x2 = q.x + (side > 0 ? -4 : o.box), dx = x2 - x1, dy = q.y - p.y, far = Math.abs(q.i - p.i);
  const bend = side ? 0 : Math.min(56, 16 + 5 * far) + {ppo: 0, rf: 7, co: 14, fr: 21, asked: 28}[e.kind];
  const path = el('path', {class: e.kind + how, 'marker-end': 'url(#tip)', d: 'M' + x1 + ' ' + p.y + ' C' + (x1 + (bend || dx / 2)) + ' ' + p.y + ' ' + (x2 + (bend || -dx / 2)) + ' ' + q.y + ' ' + x2 + ' ' + q.y});
  path.append(el('title', {}, e.lines ? e.lines.join(NL) : e.from + ' before ' + e.to));
  if (how.includes('dim') || bend && e !== all[0]) return [path];
  const part = Math.min(.5, {rf: 26, co: 44, fr: 34}[e.kind] / (1.5 * Math.abs(dx)) || .3), text = el('text', bend
    ? {x: x1 + bend * .75 + 3, y: (p.y + q.y) / 2 + 4 + 3 * (far - 1) % 12} : {x: x1 + dx * (1.5 * part * (1 - part) + part ** 3) - 6, y: p.y + dy * (3 * part * part - 2 * part ** 3) - 3});
  for (const it of bend ? all : [e]) if (it.kind !== 'asked') text.append(el('tspan', {class: it.kind}, (text.textContent ? ' ' : '') + nameOfArrow(it)));
  return [path, text];
}
function drawOp(o, op, first, last) {
  const p = spot(o, op.id), early = o.early.get(op.id), mark = early ? 'before ' + early[0].first + (early.length > 1 ? ' +' + (early.length - 1) : '') : '', room = Math.floor((o.box - 8) / LETTER);
  const group = el('g', {class: op === chosen ? 'picked' : op.position === '-' ? '' : 'box'}), head = op.id + (op.position === '-' ? '' : ' #' + op.position), beside = head.length + mark.length + 6 < room;
  const rect = el('rect', {class: 'on' + (early ? ' early' : '') + (op === chosen ? ' chosen' : ''), x: p.x - 4, y: p.y - 14, width: o.box, height: 28, rx: 4, 'fill-opacity': op.position === '-' && op !== chosen ? 0 : 1});
  rect.append(el('title', {}, [...op.lines, ...(early || []).map(it => 'performed before ' + it.first + ', which precedes it; ordered by ' + it.note)].join(NL)));
  group.append(rect, el('text', {class: op.position === '-' ? 'faint' : '', x: p.x, y: p.y - 2}, cut(head + ' ' + op.note.replace(/^<[^>]*> /, ''), room - (mark && beside ? mark.length + 1 : 0))));
  if (mark) group.append(el('text', {class: 'asked', x: beside ? p.x + o.box - 8 - mark.length * LETTER : p.x, y: beside ? p.y - 2 : p.y + 10}, cut(mark, room)));
  if (op.access && (beside || !mark)) group.append(el('text', {class: 'faint', x: p.x, y: p.y + 10}, cut(accessText(op), room)));
  group.addEventListener('click', () => choose(op));
  return group;
}
// Arrows out of the rows drawn are those of the operation that is chosen and of the cycle alone.
function isInView(o, e, ways, first, last) {
  const p = o.place.get(e.from), q = o.place.get(e.to), far = ways.includes(e) || chosen && (e.from === chosen.id || e.to === chosen.id) ? Infinity : 12;
  if (!p || !q) return false;
  const [from, to] = p.i < q.i ? [p.i, q.i] : [q.i, p.i];
  return from <= last && to >= first && from >= first - far && to <= last + far;
}
function drawOrder() {
  const o = order, box = by('chart'), svg = by('rows'), first = Math.floor(box.scrollTop / HIGH) - 3, last = first + Math.ceil(box.clientHeight / HIGH) + 6, parts = document.createDocumentFragment();
  layOrder(o);
  const defs = el('defs', {}), tip = el('marker', {id: 'tip', viewBox: '0 0 8 8', refX: 7, refY: 4, markerWidth: 7, markerHeight: 7, markerUnits: 'userSpaceOnUse', orient: 'auto'});
  tip.append(el('path', {d: 'M0 0 L8 4 L0 8 z', style: 'fill:var(--faint)'})); defs.append(tip); parts.append(defs);
  const ways = cycle ? cycle.way : [], inView = e => isInView(o, e, ways, first, last);
  const drawn = [...o.edges.filter(e => e.rules !== '-' && inView(e)), ...ways.filter(e => e.kind === 'asked' && inView(e))], pairs = new Map(), names = [];
  for (const e of drawn) { const key = e.from + ' ' + e.to; pairs.set(key, [...(pairs.get(key) || []), e]); }
  for (const e of drawn) {
    const near = ways.includes(e), far = chosen && !near && e.from !== chosen.id && e.to !== chosen.id;
    const [path, text] = arrow(o, e, (e.kind === 'ppo' || e.kind === 'asked' ? ' dashed' : '') + (near ? ' round' : far ? ' dim' : ''), pairs.get(e.from + ' ' + e.to));
    parts.append(path);
    if (text) names.push(text);
  }
  parts.append(...names);
  o.lists.forEach((list, h) => {
    for (const op of list.slice(Math.max(0, first), last)) parts.append(drawOp(o, op));
  });
  by('heads').replaceChildren(...o.lists.map((list, h) => el('text', {x: 16 + h * o.each, y: 14}, 'hart ' + h)));
  for (const svg of [by('heads'), by('rows')]) svg.setAttribute('width', o.wide);
  svg.replaceChildren(parts);
}
function holdOrder() {
  const o = order, op = chosen, parts = ['<h2>verdict</h2><pre>' + html(o.verdict) + '</pre><pre class=faint>' + html(o.performed) + '</pre>'];
  if (op) parts.push('<h2>operation ' + op.id + '</h2><pre>' + html([...op.lines, ...o.edges.filter(e => e.from === op.id || e.to === op.id).slice(0, 60).flatMap(e => e.lines)].join(NL)) + '</pre>');
  const pairs = op ? [...(o.early.get(op.id) || []), ...(o.late.get(op.id) || [])] : [...o.early.values()].flat();
  if (cycle) parts.push(toldCycle(o, cycle));
  else if (pairs.length) parts.push('<h2>in program order</h2><pre>' + (pairs.length > PAIRS ? 'the first ' + PAIRS + ' pairs' : 'they') + ' would close no cycle of these arrows</pre>');
  if (pairs.length) parts.push('<h2>performed out of program order</h2><pre>' + html(pairs.slice(0, 60).map(it => it.second + ' before ' + it.first + '; ordered by ' + it.note).join(NL)) + (pairs.length > 60 ? NL + (pairs.length - 60) + ' more' : '') + '</pre>');
  const from = Math.max(0, Math.min(o.order.length - 200, at - 9));
  parts.push('<h2>the order</h2><table>' + o.order.slice(from, from + 200).map((id, i) => '<tr' + (op && op.id === id ? ' class=new' : '') + '><td class=faint>' + (from + i) + '</td><td>' + id + '</td><td class=bytes>' + html(opText(o, id)) + '</td></tr>').join('') + '</table>');
  by('held').innerHTML = parts.join('');
}
function choose(op) {
  const o = order;
  chosen = op; at = op && o.rank.has(op.id) ? o.rank.get(op.id) + 1 : op ? at : 0;
  cycle = cycleOf(o, op ? [...(o.early.get(op.id) || []), ...(o.late.get(op.id) || [])] : [...o.early.values()].flat());
  by('where').textContent = at + ' / ' + o.order.length;
  drawOrder(); holdOrder();
}
function goOrder(to) {
  const o = order, box = by('chart'), id = o.order[Math.max(0, Math.min(o.order.length, to)) - 1], p = id && spot(o, id);
  if (p && (p.y < box.scrollTop + 2 * HIGH || p.y > box.scrollTop + box.clientHeight - 2 * HIGH)) box.scrollTop = p.y - box.clientHeight / 3;
  if (p && (p.x < box.scrollLeft || p.x + o.each > box.scrollLeft + box.clientWidth)) box.scrollLeft = p.x - 16;
  choose(o.ops.get(id) || null);
}
function findOp(text) {
  const all = [...order.ops.values()], from = chosen ? all.indexOf(chosen) + 1 : 0, hit = [...all.slice(from), ...all.slice(0, from)].find(op => op.lines.some(l => l.includes(text)));
  if (!hit) return false;
  by('chart').scrollTop = Math.max(0, spot(order, hit.id).y - by('chart').clientHeight / 3);
  choose(hit);
  return true;
}
function showOrder() {
  const o = order = orderOf(run.lines);
  o.lists = Array.from(o.lists, list => list || []);
  o.place = new Map(); o.rank = new Map(o.order.map((id, i) => [id, i]));
  o.lists.forEach((list, h) => list.forEach((op, i) => o.place.set(op.id, {h, i})));
  keptArrows(o); layOrder(o);
  legend([['rf', 'rf'], ['co', 'co'], ['fr', 'fr'], ['ppo', 'ppo'], ['asked', 'out of program order']]);
  by('chart').append(el('svg', {id: 'heads', height: 20}), el('svg', {id: 'rows', height: Math.max(1, ...o.lists.map(l => l.length)) * HIGH + 60}));
  by('title').textContent = o.lists.length + (o.lists.length > 1 ? ' harts' : ' hart') + ', an order of ' + o.order.length + ' operations';
  by('linesof').style.display = 'none';
  start({go: goOrder, step: way => goOrder(at + way), draw: drawOrder, last: o.order.length, high: HIGH}, findOp);
}
if (typeof document !== 'undefined') document.addEventListener('DOMContentLoaded', () => {
  run = parse(by('stream').textContent);
  if (run.kind === 'rvtl-stream') showRun();
  else if (run.kind === 'rvtl-order') showOrder();
  else by('warn').innerHTML = '<div class=warn>Behind this page stands no stream and no order of rvtl: print it whole, by rvtl page</div>';
});
</script>
<plaintext id='stream' hidden>
";
