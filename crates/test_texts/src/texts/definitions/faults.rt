// Catalogues with faults, each with its fault.

// The views a and t that stand before those of a case, and a view over both that is open.
pub(crate) const TWO_BASES: &str = r#"[[view]]
name = "a"
columns = ["x", "y"]
[[view]]
name = "t"
columns = ["k:text", "n:int"]
"#;

pub(crate) const OPEN_VIEW: &str = "[[view]]\nname = \"v\"\nover = [\"a\", \"t\"]\n";

// Of two faults the first: all names and children, then view by view.
pub(crate) const TWO_FAULTS: &str = r#"1 fault toml
----
[[view]]
name = "9"
[[view]
====
1 fault toml
----
[[view]]
name = "b"
columns = [9223372036854775808, "9"]
====
2 fault key name
----
[[view]]
name = "b"
columns = 3
[[view]]
name = "9"
====
2 fault key over
----
[[view]]
name = "b"
columns = 3
[[view]]
name = "v"
over = 3
====
14 fault shape unknown q
----
[[view]]
name = "b"
[[view]]
name = "v"
over = ["q"]
====
2 fault key columns
----
[[view]]
name = "b"
[[view]]
name = "v"
over = ["a"]
join = 3
====
2 fault key columns
----
[[view]]
name = "b"
columns = ["p", "p", "q:real"]
====
2 fault key columns
----
[[view]]
name = "b"
columns = ["p", "p", "9"]
====
2 fault key columns
----
[[view]]
name = "b"
columns = []
[[view]]
name = "v"
over = ["a"]
====
3 fault column q
----
[[view]]
name = "b"
columns = ["p", "q", "q:text", "p"]
====
3 fault column p
----
[[view]]
name = "b"
columns = ["p", "p:int"]
[[view]]
name = "c"
columns = []
====
4 fault kind v
----
[[view]]
name = "v"
over = ["t"]
keep = [["k", ["+", "t.k", 1]]]
[[view]]
name = "b"
columns = 3
"#;

// Of two faults in the keys of the view v the first: key by key its form, then columns, then kinds, from left to right.
pub(crate) const TWO_KEY_FAULTS: &str = r#"2 fault key join
----
join = [["a.q", "t.n"], ["a.x"]]
====
2 fault key join
----
join = [["a.q", "t.n"], ["a.x", "ax"]]
====
3 fault column a.q
----
join = [["t.k", "a.x"], ["a.q", "t.n"]]
====
3 fault column a.k
----
join = [["a.x", "a.k"], ["t.x", "t.n"]]
====
3 fault column b.x
----
join = [["a.x", "b.x"], ["b.y", "t.k"]]
====
4 fault kind v
----
join = [["a.x", "t.k"]]
where = 3
====
2 fault key where
----
where = false
keep = []
====
2 fault key where
----
where = ["any", ["=", "a.q", 1], ["nor", true]]
====
2 fault key where
----
where = ["=", "a.q", { text = "s", more = 1 }]
====
2 fault key where
----
where = ["all", ["<", "t.k", "t.k"], ["=", "a.x", 1.0]]
====
2 fault key where
----
where = ["not", ["<", "t.k", "t.k"], true]
====
3 fault column a.q
----
where = ["all", ["<", "t.k", "t.k"], ["=", "a.q", 1]]
====
3 fault column a.p
----
where = ["=", ["+", "a.p", "a.q"], "t.k"]
====
4 fault kind v
----
where = ["=", "t.k", 1]
====
4 fault kind v
----
where = ["<=", { text = "s" }, "t.k"]
keep = 3
====
2 fault key keep
----
count = 3
====
3 fault column a.q
----
keep = [["p", "a.q"]]
group = 3
====
2 fault key keep
----
keep = []
group = 3
====
2 fault key group
----
keep = [["p", "a.x"]]
group = 3
count = 3
====
2 fault key group
----
keep = [["p", "a.x"]]
group = [["p", "a.q"]]
====
2 fault key keep
----
keep = [["p", "a.q"], ["9", "a.x"]]
====
2 fault key keep
----
keep = [["p", "a.q"], ["q", "a.b.c"]]
====
3 fault column p
----
keep = [["p", "a.x"], ["p", "a.q"]]
====
3 fault column a.q
----
keep = [["p", "a.q"], ["p", "a.x"]]
====
3 fault column a.q
----
keep = [["p", ["+", "t.k", 1]], ["q", "a.q"]]
====
4 fault kind v
----
keep = [["p", ["*", 2, { text = "s" }]]]
[[view]]
name = "w"
over = ["a"]
join = 3
====
2 fault key group
----
group = [["g", "a.q"], ["h", 3]]
====
2 fault key group
----
group = [["g", "a.q"], ["h", ["+", "a.x", 1]]]
====
3 fault column g
----
group = [["g", "a.x"], ["g", "a.q"]]
count = 3
====
2 fault key count
----
group = []
sum = 3
====
2 fault key count
----
group = [["g", "a.x"]]
count = "9"
sum = 3
====
3 fault column g
----
group = [["g", "a.x"]]
count = "g"
sum = 3
====
2 fault key sum
----
group = []
count = "n"
sum = [["n", "a.x"], ["s"]]
====
3 fault column n
----
group = []
count = "n"
sum = [["s", "t.k"], ["n", "a.q"]]
====
4 fault kind v
----
group = []
count = "n"
sum = [["s", "t.k"]]
[[view]]
name = "b"
====
4 fault kind v
----
group = []
count = "n"
sum = [["s", { text = "s" }]]
[[view]]
name = "b"
"#;
