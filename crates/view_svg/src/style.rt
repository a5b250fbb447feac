//! The look of the pictures, in light and in dark.

/// The style and the patterns of all pictures. Forms tell marks apart, too; colours are those of handlers or versions.
pub const STYLE: &str = "<style>
text{font:11px sans-serif;fill:#24292f}
.h{font-weight:bold;font-size:13px}
.e{text-anchor:end}
.m{text-anchor:middle}
.s{font-size:9px}
.bg{fill:#fff}
.band{fill:#f3f5f8}
.grid{stroke:#d5dae1}
.base{stroke:#aab2bd}
.wait{fill:none;stroke-dasharray:2 2}
.ask{fill:url(#ask)}
.old{fill:none;stroke-dasharray:3 2}
.x{fill:none;stroke:#c1121f;stroke-width:2}
.cut,.reset{fill:none;stroke:#24292f;stroke-width:2}
.open,.on{fill:#24292f}
.drop{fill:#fff;stroke:#c1121f;stroke-width:1.5}
.came{stroke:currentColor;stroke-opacity:.55}
.came.k0{marker-end:url(#t0)}
.came.k1{marker-end:url(#t1)}
.came.k2{marker-end:url(#t2)}
.came.k3{marker-end:url(#t3)}
.came.k4{marker-end:url(#t4)}
.p{fill:currentColor;stroke:currentColor}
.p.un{fill:#fff}
.to{fill:currentColor}
.lost{stroke:#c1121f;fill:none}
.noise{fill:none;stroke:#c1121f;stroke-width:1.3}
.interval{fill:none;stroke:#8a94a1}
.kept{fill:none;stroke:#6b7684;stroke-dasharray:1.5 1}
.many{fill:#6b7684}
.many.miss{fill:#c1121f;fill-opacity:.6}
.curve{fill:none;stroke:currentColor;stroke-width:1.7}
.bound{fill:none;stroke:#24292f}
.bound.far{stroke-dasharray:2 1.5}
.missed{fill:none;stroke:#c1121f;stroke-width:2}
.warn,.s.warn{fill:#c1121f}
.name{fill:currentColor;paint-order:stroke;stroke:#fff;stroke-width:2.5px}
.value{fill:none;stroke:currentColor;stroke-width:1.3}
.dot{fill:currentColor}
.k0{color:#5b6b7d}
.k1{color:#00798c}
.k2{color:#a3542a}
.k3{color:#8a3ffc}
.k4{color:#24292f}
.c0{color:#0072b2}
.c1{color:#d55e00}
.c2{color:#009e73}
.c3{color:#b4478a}
.c4{color:#b8860b}
.c5{color:#3f8fc4}
.c6{color:#7a5bb5}
.c7{color:#5d6670}
.run,.inst{fill:currentColor;stroke:currentColor}
.tick{stroke:currentColor;stroke-width:1.5}
.wait,.ask,.old{stroke:currentColor}
.in{fill:#fff;stroke:none}
@media (prefers-color-scheme:dark){
text{fill:#e6e9ee}
.bg,.drop{fill:#15181d}
.band{fill:#1d2128}
.grid{stroke:#333a44}
.base{stroke:#5b6572}
.x,.drop,.lost,.noise,.missed{stroke:#ff6b6b}
.many.miss,.warn,.s.warn{fill:#ff6b6b}
.cut,.reset,.bound{stroke:#e6e9ee}
.open,.on{fill:#e6e9ee}
.p.un{fill:#15181d}
.name{stroke:#15181d}
.k0{color:#9aa8b8}
.k1{color:#35b8cc}
.k2{color:#e0935f}
.k3{color:#b99aff}
.k4{color:#e6e9ee}
.c0{color:#4aa8e0}
.c1{color:#f08a45}
.c2{color:#35c39a}
.c3{color:#e38cc0}
.c4{color:#e3b341}
.c5{color:#86c5ee}
.c6{color:#b39ae0}
.c7{color:#a6b0bc}
.in{fill:#15181d}
}
</style>
<defs><pattern id=\"ask\" width=\"4\" height=\"4\" patternUnits=\"userSpaceOnUse\" patternTransform=\"rotate(45)\">
<line class=\"base\" x1=\"1\" y1=\"0\" x2=\"1\" y2=\"4\" stroke-width=\"1.5\"/></pattern>
<marker id=\"t0\" class=\"k0\" markerWidth=\"4\" markerHeight=\"4\" refX=\"2\" refY=\"2\">
<circle class=\"to\" cx=\"2\" cy=\"2\" r=\"1.7\"/></marker>
<marker id=\"t1\" class=\"k1\" markerWidth=\"4\" markerHeight=\"4\" refX=\"2\" refY=\"2\">
<circle class=\"to\" cx=\"2\" cy=\"2\" r=\"1.7\"/></marker>
<marker id=\"t2\" class=\"k2\" markerWidth=\"4\" markerHeight=\"4\" refX=\"2\" refY=\"2\">
<circle class=\"to\" cx=\"2\" cy=\"2\" r=\"1.7\"/></marker>
<marker id=\"t3\" class=\"k3\" markerWidth=\"4\" markerHeight=\"4\" refX=\"2\" refY=\"2\">
<circle class=\"to\" cx=\"2\" cy=\"2\" r=\"1.7\"/></marker>
<marker id=\"t4\" class=\"k4\" markerWidth=\"4\" markerHeight=\"4\" refX=\"2\" refY=\"2\">
<circle class=\"to\" cx=\"2\" cy=\"2\" r=\"1.7\"/></marker>
</defs>
";
