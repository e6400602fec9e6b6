//! The page up to its first sentence.

/// The head of the page up to its title. The policy lets nothing be loaded, whatever is written into the page.
pub const HEAD: &str = "<!DOCTYPE html>
<html lang=\"en\">
<head>
<meta charset=\"utf-8\">
<meta http-equiv=\"Content-Security-Policy\" content=\"default-src 'none'; style-src 'unsafe-inline'; base-uri 'none'; form-action 'none'\">
<meta name=\"viewport\" content=\"width=device-width, initial-scale=1\">
<meta name=\"color-scheme\" content=\"light dark\">
<meta name=\"referrer\" content=\"no-referrer\">
<title>What was wrong, and what is right";

/// How the page looks. Three weights have a colour each, and words beside it. Words break where they must; the names at the head of a
/// row don't, so that ids stay whole. On a telephone a row is a block of its own. On paper only what is open is printed.
pub const STYLE: &str = "</title>
<style>
:root { --ink: #111; --dim: #414a54; --paper: #fff; --band: #f4f6f8; --line: #d3dae1; --rule: #6b747e; --link: #0b57ad; --record: #b3261e; --told: #8a5300; --unread: #5a4fb0; --record-band: #fdeeec; --told-band: #fdf3e0; --unread-band: #f0effb; }
@media (prefers-color-scheme: dark) { :root { --ink: #f0f3f6; --dim: #b6bfc9; --paper: #0f1318; --band: #181e25; --line: #323b45; --rule: #77818c; --link: #78b4ff; --record: #ff9085; --told: #f0b556; --unread: #b3abff; --record-band: #2c1917; --told-band: #292010; --unread-band: #1f1d33; } }
* { box-sizing: border-box; }
html { scroll-padding-top: 1rem; -webkit-text-size-adjust: 100%; }
body { margin: 0 auto; padding: 0 1.25rem 4rem; max-width: 74rem; font: 1rem/1.5 system-ui, -apple-system, \"Segoe UI\", Roboto, \"Noto Sans\", \"Liberation Sans\", sans-serif; color: var(--ink); background: var(--paper); overflow-wrap: anywhere; font-variant-numeric: tabular-nums; }
a { color: var(--link); text-underline-offset: .15em; }
a:focus-visible, summary:focus-visible { outline: .2rem solid var(--link); outline-offset: .1rem; border-radius: .2rem; }
.skip { position: absolute; left: 1rem; top: -4rem; padding: .5rem 1rem; background: var(--paper); border: 2px solid var(--link); }
.skip:focus { top: 1rem; }
header { padding: 2rem 0 1rem; }
header p { margin: .25rem 0; color: var(--dim); }
h1, h2, h3, h4 { line-height: 1.25; break-after: avoid; text-wrap: balance; }
h1 { margin: 0 0 .5rem; font-size: 2rem; letter-spacing: -.02em; }
h2 { margin: 3rem 0 1rem; padding-bottom: .35rem; border-bottom: 1px solid var(--line); font-size: 1.4rem; letter-spacing: -.01em; }
h3 { margin: 2rem 0 .75rem; font-size: 1.1rem; }
h4 { display: inline; margin: 0; font-size: 1rem; font-weight: 600; text-wrap: wrap; }
p { max-width: 48rem; }
nav ul { display: flex; flex-wrap: wrap; gap: .25rem 1.5rem; margin: 0; padding: .5rem 0; list-style: none; border-block: 1px solid var(--line); }
nav a, .n a { display: inline-block; padding: .25rem 0; }
.w { display: grid; grid-template-columns: repeat(auto-fit, minmax(13rem, 1fr)); gap: 1rem; margin: 1.5rem 0; padding: 0; list-style: none; }
.w li { padding: .75rem 1rem; border: 1px solid var(--line); border-top: .3rem solid var(--c); border-radius: .4rem; background: var(--b); }
.w b { display: block; font-size: 1.9rem; line-height: 1.2; color: var(--c); }
.w1 { --c: var(--record); --b: var(--record-band); }
.w2 { --c: var(--told); --b: var(--told-band); }
.w3 { --c: var(--unread); --b: var(--unread-band); }
.facts { display: grid; grid-template-columns: max-content minmax(0, 1fr); gap: .2rem 1.5rem; margin: 1.5rem 0; }
.facts dt { color: var(--dim); }
dd { margin: 0; }
table { border-collapse: collapse; width: 100%; }
.t { overflow-x: auto; margin: .75rem 0; }
caption { text-align: left; font-weight: 600; padding: .5rem 0; }
th, td { padding: .35rem .75rem .35rem 0; text-align: left; vertical-align: top; border-bottom: 1px solid var(--line); }
th { font-weight: inherit; }
thead th { color: var(--dim); font-size: .875rem; border-bottom-color: var(--rule); white-space: nowrap; }
td { white-space: break-spaces; }
.n th, .n td { vertical-align: baseline; }
.n th:first-child { width: 21rem; }
.n td:nth-child(2) { width: 12rem; white-space: nowrap; }
.n b { font-weight: 600; }
.n td a { margin-right: 1rem; }
svg { width: 8rem; height: .7rem; margin-right: .5rem; }
rect { fill: var(--dim); }
.g, .s { content-visibility: auto; contain-intrinsic-size: auto 8rem; }
.g { margin: .75rem 0; padding: .6rem 1rem; border: 1px solid var(--line); border-left: .3rem solid var(--c); border-radius: .4rem; }
.g > summary { margin: -.6rem -1rem; padding: .6rem 1rem; }
.g[open] > summary { margin-bottom: .25rem; background: var(--b); }
.g p { margin: .5rem 0; }
.g i { font-style: normal; color: var(--c); font-weight: 600; }
.r th { white-space: nowrap; }
.r td:nth-child(5) { color: var(--c); font-weight: 600; }
.r td:nth-child(6) { font-weight: 600; }
.r tr:has(+ .m) > * { border-bottom: 0; padding-bottom: 0; }
.r .m td { padding-top: 0; font-weight: 400; color: inherit; }
summary { cursor: pointer; }
summary span { color: var(--dim); margin-left: .5rem; }
details details > summary { color: var(--dim); font-size: .875rem; padding: .2rem 0; }
.g ul, .s ul { margin: .25rem 0; padding-left: 1.25rem; }
.g li, details details p { white-space: break-spaces; }
.g details p { font-size: .9rem; }
.s { padding: .3rem 0; border-bottom: 1px solid var(--line); }
.s p { margin: .25rem 0; }
.s span, .s li span { color: var(--dim); }
.c th:nth-child(1) { width: 14%; }
.c th:nth-child(2) { width: 26%; }
.c th:nth-child(3) { width: 30%; }
.c th:nth-child(4) { width: 30%; }
:target { outline: .15rem solid var(--link); outline-offset: .15rem; }
@media (max-width: 44rem) {
body { padding: 0 1rem 3rem; }
header { padding-top: 1.25rem; }
h1 { font-size: 1.5rem; }
h2 { margin-top: 2.25rem; font-size: 1.25rem; }
.w { grid-template-columns: 1fr; gap: .5rem; }
.w b { display: inline; font-size: 1.25rem; }
.facts { grid-template-columns: 1fr; }
.facts dd { margin-bottom: .4rem; }
.n thead, .r thead, .c thead { position: absolute; width: 1px; height: 1px; overflow: hidden; clip-path: inset(50%); }
.n tr, .r tr, .c tr { display: flex; flex-wrap: wrap; padding: .4rem 0; border-bottom: 1px solid var(--line); }
.n th, .n td, .r th, .r td, .c th, .c td { flex: 1 1 100%; padding: .05rem 0; border: 0; }
.n th:first-child { flex: 1 1 0; width: auto; }
.n td:nth-child(2) { flex: 0 0 auto; width: auto; }
.n svg { width: 4rem; }
.r th::before { content: \"line \"; }
.r tr:has(+ .m) { border-bottom: 0; padding-bottom: 0; }
.r th:first-child { flex: 0 0 auto; margin-right: 1rem; }
.r td:nth-child(2) { flex: 1 1 auto; }
.r td:nth-child(5)::before { content: \"told \"; color: var(--dim); font-weight: 400; }
.r td:nth-child(6)::before { content: \"right \"; color: var(--dim); font-weight: 400; }
.c th:nth-child(1) { flex: 0 0 auto; width: auto; margin-right: 1rem; }
.c td:nth-child(2) { flex: 1 1 0; }
.c td:nth-child(3)::before { content: \"before \"; color: var(--dim); }
.c td:nth-child(4)::before { content: \"after \"; color: var(--dim); }
.g { padding: .6rem .75rem; }
.g > summary { margin: -.6rem -.75rem; padding: .6rem .75rem; }
}
@media print {
:root { --ink: #000; --dim: #333; --paper: #fff; --band: #fff; --line: #bbb; --rule: #666; --link: #000; --record: #8c1d18; --told: #6b4100; --unread: #3f3791; --record-band: #fff; --told-band: #fff; --unread-band: #fff; }
@page { margin: 12mm; }
html { font-size: 8pt; }
body { max-width: none; padding: 0; line-height: 1.3; }
header { padding: 0 0 .5rem; }
a { text-decoration: none; }
nav, .skip, details.x:not([open]), details .m details:not([open]), .g > details:not([open]) { display: none; }
.m:not(:has(details[open])) { display: none; }
.r tr:has(+ .m) > * { border-bottom: 1px solid var(--line); }
h2 { margin: 1.5rem 0 .5rem; }
h3 { margin: 1rem 0 .5rem; }
.w { grid-template-columns: repeat(3, 1fr); margin: .5rem 0; }
.w b { font-size: 1.3rem; }
th, td { padding: .1rem .75rem .1rem 0; }
.t { overflow: visible; margin: .25rem 0; }
.g, .s { content-visibility: visible; }
.g { margin: .4rem 0; padding: .3rem .75rem; }
.g > summary { margin: -.3rem -.75rem; padding: .3rem .75rem; }
.s { padding: .1rem 0; }
tr, .w li, summary { break-inside: avoid; }
summary { break-after: avoid; list-style: none; }
svg, .w li { print-color-adjust: exact; }
}
</style>
</head>
<body>
<a class=\"skip\" href=\"#wrong\">Skip to the wrong responses</a>
<header>
<h1>What was wrong, and what is right</h1>
";

/// The end of the head, and links to the parts of the page.
pub const PARTS: &str = "</strong>.</p>
</header>
<nav aria-label=\"Parts of the page\"><ul>
<li><a href=\"#summary\">Summary</a></li>
<li><a href=\"#wrong\">Wrong responses</a></li>
<li><a href=\"#patrons\">Patrons</a></li>
<li><a href=\"#items\">Items</a></li>
<li><a href=\"#passed\">Passed over</a></li>
</ul></nav>
<main>
";
