//! How a diagram and a page look, in both colour schemes and in print.

/// The colours, and the diagram. Letters are what became of a transaction: n none, o open, c
/// committed, a aborted.
pub(crate) const DIAGRAM: &str =
    ":root{color-scheme:light dark;--bg:#fff;--ink:#1b2430;--dim:#5d6b7e;--line:#cfd7e1;--pick:#fff3c4;--n:#52637a;--o:#9a6a00;--c:#177245;--a:#b3261e;--nf:#eef2f7;--of:#fdf0d0;--cf:#ddf3e6;--af:#fbe3e0}
@media (prefers-color-scheme:dark){:root{--bg:#11161d;--ink:#e6ebf2;--dim:#98a5b8;--line:#333d4b;--pick:#4a4016;--n:#9fb0c8;--o:#e5b84b;--c:#5fcf95;--a:#ff8a80;--nf:#232c38;--of:#3a3015;--cf:#12372a;--af:#431f1d}}
svg{font:11px ui-sans-serif,system-ui,sans-serif;background:var(--bg);display:block}
svg text{fill:var(--ink)}
path.lane{stroke:var(--line)}
text.lane{text-anchor:middle;font-weight:600;font-size:12px}
.n{--k:var(--n);--f:var(--nf)}.o{--k:var(--o);--f:var(--of)}.c{--k:var(--c);--f:var(--cf)}.a{--k:var(--a);--f:var(--af)}
rect.back{fill:var(--bg);stroke:none}
svg a rect{fill:var(--f);stroke:var(--k);stroke-width:1.5}
svg circle{fill:var(--k)}
.batch text,.marker text,.restart text,.failure text{text-anchor:middle}
.marker text{font-weight:600}
.dot text{paint-order:stroke;stroke:var(--bg);stroke-width:3px}
.across{stroke:var(--n);stroke-width:2;stroke-dasharray:7 3}
.failure .across{stroke:var(--a)}
.failure text{fill:var(--a);font-weight:600}
.wait{stroke:var(--k);stroke-width:3;opacity:.55}
path.lso{stroke:var(--dim);stroke-dasharray:1 3}
text.lso{font-size:9px;fill:var(--dim);text-anchor:end}
.m path{fill:none;stroke:var(--k);stroke-width:var(--w,1.3);marker-end:url(#tip-n)}
.m.c path{marker-end:url(#tip-c)}.m.a path{marker-end:url(#tip-a)}.m.o path{marker-end:url(#tip-o)}
.m.again path{stroke-dasharray:5 4}
.m.lost path{stroke-dasharray:2 3;marker-end:url(#cross)}
.m.out path{stroke-width:var(--w,.8)}
.name{font-size:9px;fill:var(--dim);text-anchor:middle;paint-order:stroke;stroke:var(--bg);stroke-width:3px}
";

/// What arrows end in.
pub(crate) const TIPS: &str =
    "<defs><marker id=\"tip-n\" class=\"n\" viewBox=\"0 0 8 8\" refX=\"8\" refY=\"4\" markerWidth=\"7\" markerHeight=\"7\" orient=\"auto\"><path d=\"m 0 0 8 4 -8 4 z\" fill=\"var(--k)\"/></marker>
<marker id=\"tip-o\" class=\"o\" viewBox=\"0 0 8 8\" refX=\"8\" refY=\"4\" markerWidth=\"7\" markerHeight=\"7\" orient=\"auto\"><path d=\"m 0 0 8 4 -8 4 z\" fill=\"var(--k)\"/></marker>
<marker id=\"tip-c\" class=\"c\" viewBox=\"0 0 8 8\" refX=\"8\" refY=\"4\" markerWidth=\"7\" markerHeight=\"7\" orient=\"auto\"><path d=\"m 0 0 8 4 -8 4 z\" fill=\"var(--k)\"/></marker>
<marker id=\"tip-a\" class=\"a\" viewBox=\"0 0 8 8\" refX=\"8\" refY=\"4\" markerWidth=\"7\" markerHeight=\"7\" orient=\"auto\"><path d=\"m 0 0 8 4 -8 4 z\" fill=\"var(--k)\"/></marker>
<marker id=\"cross\" class=\"a\" viewBox=\"0 0 8 8\" refX=\"4\" refY=\"4\" markerWidth=\"8\" markerHeight=\"8\"><path d=\"m 1 1 6 6 m 0 -6 -6 6\" fill=\"none\" stroke=\"var(--k)\" stroke-width=\"1.6\"/></marker></defs>
";

/// The page around the diagram.
pub(crate) const PAGE: &str = "*{box-sizing:border-box}
body{margin:0;background:var(--bg);color:var(--ink);font:14px/1.45 ui-sans-serif,system-ui,sans-serif}
header,#rules{padding:.6rem 1rem}
h1{font-size:1.25rem;margin:.2rem 0}h2{font-size:1.05rem;margin:1rem 0 .4rem}h3{font-size:.95rem;margin:.8rem 0 .3rem}
a{color:inherit}
form{display:flex;flex-wrap:wrap;gap:.4rem 1rem;align-items:center;margin:.4rem 0}
select{font:inherit;background:var(--nf);color:var(--ink);border:1px solid var(--line);border-radius:4px;padding:.1rem .3rem}
.key{display:flex;flex-wrap:wrap;gap:.2rem 1rem;color:var(--dim);font-size:.85rem;margin:.2rem 0}
.key i{display:inline-block;width:1.1rem;height:.7rem;margin-right:.35rem;border:1.5px solid var(--k);background:var(--f);border-radius:2px}
main{display:grid;grid-template-columns:minmax(0,1fr) 27rem;border-top:1px solid var(--line)}
#run{overflow:auto;max-height:100vh}
.names{position:sticky;top:0;z-index:1;border-bottom:1px solid var(--line);background:var(--bg);width:max-content;min-width:100%}
.part{display:flex;width:max-content;min-width:100%;content-visibility:auto;contain-intrinsic-size:auto var(--h)}
.part svg{flex:none}
ol{margin:0;padding:0 .5rem 0 3.6rem;color:var(--dim);font-size:12px}
li{height:26px;line-height:26px;white-space:nowrap;border-radius:4px;padding:0 .3rem}
li b{color:var(--ink);font-weight:600}
li a.rule{margin-left:.5rem}
li:target{background:var(--pick)}
aside{border-left:1px solid var(--line);padding:.2rem 1rem 1rem;position:sticky;top:0;max-height:100vh;overflow:auto}
#chosen{min-height:7.5rem;border-bottom:1px solid var(--line);padding-bottom:.5rem;overflow-wrap:anywhere}
table{border-collapse:collapse;width:100%;font-size:.8rem}
td,th{border-top:1px solid var(--line);padding:.2rem .4rem;text-align:left;vertical-align:top}
td{overflow-wrap:break-word}
td:nth-child(3){overflow-wrap:anywhere;min-width:5rem}
td.k{border-left:4px solid var(--k)}
.log{content-visibility:auto;contain-intrinsic-size:auto 30rem}
.log table{table-layout:fixed}.log td,.log th{overflow-wrap:anywhere}
.log :is(td,th):nth-child(1){width:15%}.log :is(td,th):nth-child(2){width:29%}.log :is(td,th):nth-child(4){width:28%}
tr:target td{background:var(--pick)}
#rules{border-top:1px solid var(--line);max-width:70rem}
:focus-visible{outline:2px solid var(--o);outline-offset:1px}
@media (max-width:60rem){main{grid-template-columns:minmax(0,1fr)}#run{max-height:80vh}aside{border-left:0;border-top:1px solid var(--line);position:static;max-height:none}}
@media print{form,#chosen{display:none}main{display:block}#run{overflow:visible;max-height:none}.part,.log{content-visibility:visible;break-inside:auto}aside{position:static;max-height:none;border:0;break-before:page}.names{position:static}}
";
