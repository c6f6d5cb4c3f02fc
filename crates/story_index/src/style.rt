//! How the page looks, in light and in dark.

/// The page's style sheet.
pub const STYLE: &str = "
:root{color-scheme:light dark;--ground:#fbfaf7;--card:#fff;--ink:#23211d;--soft:#6d675d;--rule:#e2ddd2;--link:#7a3b12;--room:#fff;--room-line:#8a7f6c;--start:#f3e3c9;--lost:#f7d9d3;--way:#8a7f6c;--door:#b0552a;--mark:#9a3324}
@media (prefers-color-scheme:dark){:root{--ground:#191816;--card:#211f1c;--ink:#e9e4d9;--soft:#a59d8e;--rule:#393530;--link:#e7a873;--room:#2a2723;--room-line:#9a8f7c;--start:#4a3b22;--lost:#552a24;--way:#9a8f7c;--door:#e08d5a;--mark:#ee9484}}
*{box-sizing:border-box}
html{scroll-padding-top:3.2rem;-webkit-text-size-adjust:100%}
body{margin:0;background:var(--ground);color:var(--ink);font:16px/1.55 Charter,'Bitstream Charter','Iowan Old Style',Georgia,'Liberation Serif',serif}
a{color:var(--link);text-decoration-thickness:1px;text-underline-offset:2px}
main{padding-top:1.1rem!important}
header,main{max-width:62rem;margin:0 auto;padding:0 1.1rem}
header{padding-top:2.2rem;padding-bottom:.6rem}
h1{font-size:1.9rem;line-height:1.2;font-weight:600;margin:0 0 .3rem}
h2{font-size:1.35rem;font-weight:600;margin:3rem 0 .8rem;padding-bottom:.3rem;border-bottom:1px solid var(--rule)}
h3{font-size:1.05rem;font-weight:600;margin:1.4rem 0 .25rem}
p,ul,ol,table{margin:.3rem 0 .7rem}
nav{position:sticky;top:0;z-index:2;background:var(--ground);border-bottom:1px solid var(--rule);overflow-x:auto;white-space:nowrap}
nav div{max-width:62rem;margin:0 auto;padding:.55rem 1.1rem;font:14px/1.4 system-ui,sans-serif}
nav a{margin-right:1rem;text-decoration:none}
.line,.soft{color:var(--soft);font-size:.86em}
.line{font-family:system-ui,sans-serif;font-weight:400;white-space:nowrap;margin-left:.35rem;font-size:.78em}
.line a{color:inherit}
.mark{color:var(--mark);font-size:.86em}
.text{color:var(--soft);font-style:italic;margin:.1rem 0 .35rem}
.plain{list-style:none;padding:0}
.plain>li,ol.rules>li{margin:.2rem 0}
.tree>li{padding-left:calc(var(--deep,0)*1.35rem)}
.props:not(:empty)::before{content:'· '}
.glance{display:grid;grid-template-columns:repeat(auto-fit,minmax(15rem,1fr));gap:.7rem;padding:0;list-style:none}
.glance li{background:var(--card);border:1px solid var(--rule);border-radius:8px;padding:.6rem .8rem}
.glance b{font-weight:600}
.map{overflow:auto;max-height:85vh;background:var(--card);border:1px solid var(--rule);border-radius:8px}
.map svg{display:block;margin:0 auto}
.map rect{fill:var(--room);stroke:var(--room-line);stroke-width:1.2}
.map .start rect{fill:var(--start)}
.map .lost rect{fill:var(--lost)}
.map path{fill:none;stroke:var(--way);stroke-width:1.6}
.map .other{stroke-dasharray:5 4}
.map marker path{fill:var(--way);stroke:none}
.map text{font:12px system-ui,sans-serif;fill:var(--ink);text-anchor:middle}
.map .say{font-size:10px;fill:var(--soft);paint-order:stroke;stroke:var(--card);stroke-width:3px}
.map .door rect{fill:var(--door);stroke:none}
.map a:hover rect{stroke-width:2.4}
.map .group{text-anchor:start;fill:var(--mark)}
.key{display:inline-block;font-size:.86em;color:var(--soft)}
.words{columns:15rem;column-gap:2rem}
.words li{break-inside:avoid}
kbd{font:13px ui-monospace,'DejaVu Sans Mono',monospace}
ol.rules{padding-left:1.6rem}
.why{display:block;color:var(--soft);font-size:.86em}
details{margin:.25rem 0}
summary{cursor:pointer;color:var(--soft);font-size:.9em}
table{border-collapse:collapse;width:100%;font-size:.94em}
td,th{text-align:left;vertical-align:top;padding:.25rem .8rem .25rem 0;border-bottom:1px solid var(--rule)}
th{font-weight:600;color:var(--soft);font-size:.86em}
.wide{overflow-x:auto}
meter{width:8rem;max-width:30vw}
.source{overflow-x:auto;background:var(--card);border:1px solid var(--rule);border-radius:8px;padding:.6rem 0;font:13px/1.5 ui-monospace,'DejaVu Sans Mono',monospace}
.source div{white-space:pre;padding:0 .8rem 0 0;tab-size:4}
.source a{display:inline-block;width:3.6rem;text-align:right;margin-right:1rem;color:var(--soft);text-decoration:none}
:target{background:var(--start);border-radius:4px}
footer{max-width:62rem;margin:3rem auto 2rem;padding:0 1.1rem;color:var(--soft);font-size:.86em}
@media (max-width:34rem){body{font-size:15px}h1{font-size:1.5rem}h2{margin-top:2.2rem}.map{max-height:70vh}}
@media print{nav{position:static}.map{max-height:none;overflow:visible}}
";
