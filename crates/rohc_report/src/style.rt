//! The style of a page, and the policy that allows nothing else.

/// What the page may load: nothing. Only this style is allowed, by its digest.
pub const POLICY: &str =
    "default-src 'none'; style-src 'sha256-ayeyBMs7k03JwRApAgdSDix+8br35S+zpLu6EwfvkuI='; base-uri 'none'; form-action 'none'";

/// The style.
pub const STYLE: &str = "
:root { color-scheme: light dark; --page: #ffffff; --text: #1b2027; --quiet: #57606a; --line: #d5dbe1; --box: #f5f7f9;
  --own: #0b5cad; --full: #2a9d8f; --static: #c98500; --none: #b3402e; --delivered: #6a8fc4; --repaired: #7a3fc4;
  --late: #c2611a; --frame: #5d6673; --header: #96641c; --context: #c2255c; --check: #d1242f; --sent: #3f7d20; }
@media (prefers-color-scheme: dark) {
  :root { --page: #0e1116; --text: #e4e8ee; --quiet: #9aa4af; --line: #343b45; --box: #171c23; --own: #6cb0ff;
    --full: #3fb8a8; --static: #e2a93b; --none: #e5705c; --delivered: #6f97d1; --repaired: #b48bf2; --late: #f0964b;
    --frame: #9aa4b2; --header: #d0a052; --context: #f2719c; --check: #ff6b6b; --sent: #84c65c; }
}
* { box-sizing: border-box; }
html { scroll-padding-top: 1rem; }
body { margin: 0 auto; max-width: 72rem; padding: 1.5rem 1rem 4rem; background: var(--page); color: var(--text);
  font: 1rem/1.5 system-ui, sans-serif; font-variant-numeric: tabular-nums; }
h1 { margin: 0; font-size: 1.75rem; line-height: 1.2; } h2 { margin: 2.5rem 0 .5rem; font-size: 1.25rem; }
h3 { margin: 0; font-size: 1rem; } p { margin: .5rem 0; max-width: 46rem; } a { color: var(--own); }
.quiet { color: var(--quiet); } .file { overflow-wrap: anywhere; }
nav a { display: inline-block; margin-right: 1rem; padding: .25rem 0; }
:focus-visible { outline: 2px solid var(--own); outline-offset: 2px; border-radius: 2px; }
.skip { position: absolute; left: -100rem; } .skip:focus { position: static; display: inline-block; margin-top: .5rem; }
ul.tiles { display: grid; grid-template-columns: repeat(auto-fill, minmax(8.5rem, 1fr)); gap: .5rem; margin: 1rem 0; padding: 0;
  list-style: none; }
.tiles li { background: var(--box); border: 1px solid var(--line); border-radius: 8px; padding: .5rem .75rem; }
.tiles span { display: block; color: var(--quiet); font-size: .8125rem; }
.tiles strong { font-size: 1.375rem; font-weight: 400; line-height: 1.3; } .tiles .bad strong { color: var(--check); font-weight: 600; }
.wide { overflow-x: auto; border: 1px solid var(--line); border-radius: 8px; }
table { border-collapse: collapse; width: 100%; font-size: .875rem; }
th, td { padding: .3rem .65rem; text-align: right; white-space: nowrap; border-bottom: 1px solid var(--line); }
thead th { background: var(--box); color: var(--quiet); font-weight: 600; }
tbody tr:last-child > * { border-bottom: 0; } tbody tr.sum > * { border-top: 2px solid var(--line); font-weight: 600; }
th[scope=row], .text { text-align: left; } th[scope=row] { font-weight: 600; } #refusals td.text { white-space: normal; min-width: 14rem; }
tr.silent th, tr.silent .now { color: var(--check); }
ul.legend { display: flex; flex-wrap: wrap; gap: .25rem 1.25rem; list-style: none; padding: 0; margin: .75rem 0; font-size: .8125rem; }
.legend li { display: flex; align-items: center; gap: .4rem; } .legend svg { width: 12px; height: 12px; flex: none; }
article { border-top: 1px solid var(--line); padding: 1rem 0 .75rem; } article:target h3 { color: var(--own); }
.facts { font-size: .875rem; margin: .125rem 0 .5rem; max-width: none; } .facts b { color: var(--check); font-weight: 600; }
.strip { display: grid; grid-template-columns: 4.5rem minmax(0, 1fr); column-gap: .5rem; }
.names { display: grid; grid-template-rows: 18px 30px 16px 22px 18px; font-size: .6875rem; line-height: 1; color: var(--quiet); }
.names span { align-self: end; text-align: right; padding-bottom: 2px; }
.strip svg { display: block; width: 100%; height: 104px; background: var(--box); border-radius: 4px; }
.times { grid-column: 2; display: flex; justify-content: space-between; gap: .5rem; font-size: .75rem; color: var(--quiet); }
.full { fill: var(--full); } .static { fill: var(--static); } .none { fill: var(--none); } .delivered { fill: var(--delivered); }
.repaired { fill: var(--repaired); } .late { fill: var(--late); } .frame { fill: var(--frame); } .header { fill: var(--header); }
.context { fill: var(--context); } .check { fill: var(--check); } .ack { fill: var(--sent); } .nack { fill: var(--static); }
.snack { fill: var(--none); }
svg a rect { fill: transparent; } svg a:hover rect, svg a:focus-visible rect { fill: var(--own); fill-opacity: .35; }
svg a:focus-visible { outline: none; } svg a:focus-visible rect { stroke: var(--own); stroke-width: 2; vector-effect: non-scaling-stroke; }
details { margin: .25rem 0; } summary { cursor: pointer; padding: .125rem 0; font-size: .875rem; }
details details { margin-left: 1rem; }
pre { margin: .25rem 0 .75rem; padding: .75rem; overflow-x: auto; background: var(--box); border: 1px solid var(--line);
  border-radius: 6px; font: .75rem/1.5 ui-monospace, monospace; }
pre:target { border-color: var(--own); box-shadow: 0 0 0 1px var(--own); }
@media print { .skip, nav { display: none; } }
";
