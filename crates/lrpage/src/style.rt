//! How a page looks: light or dark, as the reader has it.

/// The style sheet.
pub(crate) const STYLE: &str = r#":root {
  color-scheme: light dark;
  --page: #f6f7f9; --card: #ffffff; --ink: #1b1f24; --soft: #57606a; --line: #d5dae0; --code: #f2f4f7;
  --link: #0a56b8; --one: #b3261e; --one-soft: #fdeceb; --other: #0a56b8; --other-soft: #e6f0fd; --good: #17702f;
  --warned: #9a6700; --warned-soft: #fff1c2;
}
@media (prefers-color-scheme: dark) {
  :root {
    --page: #101316; --card: #1a1e23; --ink: #e7eaed; --soft: #a2acb6; --line: #353c44; --code: #22272d;
    --link: #82b4ff; --one: #ff9b92; --one-soft: #4a2120; --other: #82b4ff; --other-soft: #1c3557; --good: #63d388;
    --warned: #e3b341; --warned-soft: #4a3a10;
  }
}
* { box-sizing: border-box; }
body { margin: 0; background: var(--page); color: var(--ink); font: 16px/1.5 system-ui, sans-serif; }
header, main { max-width: 75rem; margin: 0 auto; padding: 0 1rem; }
header { padding-top: 1.5rem; }
h1 { margin: 0; font-size: 1.6rem; overflow-wrap: anywhere; }
h2 { margin: 2rem 0 .75rem; font-size: 1.25rem; }
p { margin: .5rem 0; }
code, dfn, .text, .body, .names, .place i, svg text {
  font-family: ui-monospace, 'DejaVu Sans Mono', Menlo, Consolas, monospace; font-size: 14px; }
a { color: var(--link); text-decoration: none; }
a:hover { text-decoration: underline; }
:focus-visible { outline: 2px solid var(--link); outline-offset: 2px; }
[hidden] { display: none; }
.soft { color: var(--soft); }
.verdict { font-size: 1.1rem; font-weight: 600; padding-left: .7rem; border-left: .3rem solid var(--one);
  overflow-wrap: anywhere; }
.verdict.good { border-color: var(--good); }
nav { position: sticky; top: 0; z-index: 1; background: var(--page); border-bottom: 1px solid var(--line); }
nav div { max-width: 75rem; margin: 0 auto; padding: .5rem 1rem; display: flex; flex-wrap: wrap;
  gap: .4rem 1.2rem; align-items: center; }
nav input { flex: 1 1 16rem; font: inherit; padding: .3rem .6rem; color: inherit; background: var(--card);
  border: 1px solid var(--soft); border-radius: 6px; }
.part { content-visibility: auto; contain-intrinsic-size: auto 2.8rem; margin-bottom: .5rem;
  background: var(--card); border: 1px solid var(--line); border-radius: 8px; padding: .4rem .9rem; }
.part:target { border-color: var(--link); box-shadow: 0 0 0 1px var(--link); }
.part > summary { cursor: pointer; overflow-wrap: anywhere; }
summary b, dfn { font-weight: 600; font-style: normal; }
.tag { font-size: .8rem; padding: .1rem .5rem; margin-left: .4rem; border-radius: 1rem; border: 1px solid;
  color: var(--soft); white-space: nowrap; }
.tag.marked { color: var(--one); background: var(--one-soft); }
h3 { margin: 0; font-size: 1rem; }
.places { margin: .75rem 0; border: 1px solid var(--line); border-radius: 6px; background: var(--code);
  padding: .4rem 0; }
.place { display: flex; flex-wrap: wrap; gap: 0 .8rem; padding: 0 .8rem; }
.place i { font-style: normal; color: var(--soft); min-width: 3ch; text-align: right; user-select: none; }
.place code { white-space: pre; overflow-x: auto; max-width: calc(100% - 4rem); }
.place span { margin-left: auto; padding-left: 1.5rem; font-family: system-ui, sans-serif; overflow-wrap: anywhere; }
mark { color: inherit; background: var(--other-soft); border-bottom: 2px solid var(--other); }
.one mark { background: var(--one-soft); border-color: var(--one); }
.warned code { white-space: pre-wrap; overflow-wrap: anywhere; }
.warned mark { background: var(--warned-soft); border-color: var(--warned); }
.text mark { background: var(--one-soft); border-color: var(--one); }
.one > span, .one > figcaption { color: var(--one); }
.other > span, .other > figcaption { color: var(--other); }
.text { margin: .4rem 0 .4rem 1.2rem; overflow-wrap: anywhere; }
.dot { color: var(--one); font-weight: 700; }
.trees { display: grid; grid-template-columns: repeat(auto-fit, minmax(min(100%, 24rem), 1fr)); gap: .75rem;
  margin: .75rem 0; }
figure { margin: 0; border: 1px solid var(--line); border-radius: 6px; padding: .4rem .8rem; overflow-x: auto; }
figcaption { font-weight: 600; overflow-wrap: anywhere; }
figcaption code, figcaption code a { font-weight: 400; color: var(--ink); }
svg { display: block; margin: .3rem auto; max-width: 100%; height: auto; }
svg text { fill: var(--ink); text-anchor: middle; font-size: 13px; }
svg rect { fill: var(--code); stroke: var(--line); }
svg .token { fill: var(--card); stroke: none; }
svg path { fill: none; stroke: var(--soft); stroke-width: 1.2; }
svg .dot { stroke: var(--ink); stroke-dasharray: 3 3; }
.one .differs rect { fill: var(--one-soft); stroke: var(--one); }
.one path.differs { stroke: var(--one); stroke-width: 2; }
.other .differs rect { fill: var(--other-soft); stroke: var(--other); }
.other path.differs { stroke: var(--other); stroke-width: 2; }
.more { margin: .4rem 0 .4rem 1.2rem; }
.help { border-left: .25rem solid var(--good); padding-left: .7rem; }
ul, ol, .names { margin: .2rem 0; padding-left: .5rem; list-style: none; }
.body li { padding-left: 1.5rem; text-indent: -1.5rem; overflow-wrap: anywhere; }
ol.body li::before { content: '| '; color: var(--soft); }
ol.body li:first-child::before { content: ': '; }
.names { display: flex; flex-wrap: wrap; gap: .1rem 1.5rem; }
dfn, section, .part { scroll-margin-top: calc(var(--bar, 4rem) + .5rem); }
::highlight(found) { background: #ffe08a; color: #1b1f24; }
.part:has(:target) { border-color: var(--link); }
.conflict, .settled { border-left: .25rem solid var(--one); padding-left: .7rem; }
.settled { border-color: var(--good); }
"#;
