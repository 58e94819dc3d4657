// Bundles of several nights.

// Two nights whose texts are numbered by tables, then by the nights in order, and three nights of `a` alone, of which the
// second has no changes.
pub(crate) const NIGHTS: &str = "r
one
two
four
three
#,x
1,one
#,y
1,two
#,x
night
#,x
-1,one
1,four
#,y
#,x
comp v from a
inst a
inst v
inst b
night
#,x
1,three
#,y
-1,two
#,x
inst b
1 2 3 2
night
----
@schedule
desks 1
workers 2
keys 3
begin
@strategy
comp v from a
inst a
inst v
inst b
@data b
y
two
@catalogue
[[view]]
name = \"a\"
columns = [\"x:text\"]
[[view]]
name = \"b\"
columns = [\"y:text\"]
[[view]]
name = \"v\"
over = [\"a\"]
where = [\"<>\", \"a.x\", { text = \"r\" }]
keep = [[\"x\", \"a.x\"]]
@changes a
#,x
-1,one
1,four
@night
 \t
@changes b
#,y
-1,two
@strategy
inst b
@changes a
#,x
1,three
@data a
x
one
@sizes
not looked at
@plan
nor this
====
#,x
2,7
night
#,x
1,-1
inst a
night
#,x
night
#,x
-1,-1
1 1 1 2
----
@catalogue
[[view]]
name = \"a\"
columns = [\"x\"]
@data a
x
7
7
@strategy
inst a
@changes a
#,x
1,-1
@night
@strategy
@night
@strategy
@changes a
#,x
-1,-1
@schedule
desks 1
workers 1
keys 1
";

// The first night is open from the start.
pub(crate) const NO_NIGHT: &str = "night
1 1 1 2
----
@catalogue
view = []
@strategy
@schedule
desks 1
workers 1
keys 1
";

// Bundles with two faults or more, each of which has one less than the one above it.
pub(crate) const FAULTS: &str = "12 fault part night
----
@night
x
@foo
====
12 fault part foo
----
@night
@foo
@night
x
====
12 fault part catalogue
----
@night
====
12 fault part strategy
----
@catalogue
not TOML
@strategy
@night
====
12 fault part strategy
----
@catalogue
not TOML
@schedule
@night
@strategy
====
12 fault part schedule
----
@catalogue
not TOML
@strategy
@night
@strategy
====
1 fault toml
----
@catalogue
not TOML
@data b
@strategy
@schedule
====
2 fault key columns
----
@catalogue
[[view]]
name = \"a\"
@data b
@strategy
@schedule
====
12 fault part changes
----
@catalogue
[[view]]
name = \"a\"
columns = [\"x\"]
@data a
y
@strategy
inst q
@night
@strategy
@changes b
@data c
@schedule
====
12 fault part data
----
@catalogue
[[view]]
name = \"a\"
columns = [\"x\"]
[[view]]
name = \"v\"
over = [\"a\"]
keep = [[\"x\", \"a.x\"]]
@data v
@strategy
@changes b
@schedule
====
7 fault header
----
@catalogue
[[view]]
name = \"a\"
columns = [\"x\"]
@strategy
inst q
@changes a
#,x
x,1
@data a
y
@schedule
====
6 fault number 2
----
@catalogue
[[view]]
name = \"a\"
columns = [\"x\"]
@strategy
inst q
@changes a
#,x
x,1
@night
@changes a
y
@strategy
@schedule
====
9 fault strategy 1
----
@catalogue
[[view]]
name = \"a\"
columns = [\"x\"]
@strategy
inst q
@night
@changes a
y
@strategy
@schedule
====
7 fault header
----
@catalogue
[[view]]
name = \"a\"
columns = [\"x\"]
@strategy
inst a
@night
@changes a
y
@strategy

inst q
@schedule
====
9 fault strategy 2
----
@catalogue
[[view]]
name = \"a\"
columns = [\"x\"]
@schedule
desks 17
@strategy
inst a
@night
@strategy

inst q
====
9 fault schedule 1
----
@catalogue
[[view]]
name = \"a\"
columns = [\"x\"]
@schedule
desks 17
@strategy
inst a
@night
@strategy
inst a
";
