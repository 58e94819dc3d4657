// Catalogues, each with what it says.

// What is read: each view's columns, and of a derived view what joins, whether the filter holds, and the values of what
// is kept, grouped and summed, on the combined row whose cells are their own places; last the dictionary.
pub(crate) const CATALOGUES: &str = r#"x:int y:int 
y:int z:int 
x:int z:int 
 join 1=2
 where true
 keep 0 3
----
[[view]]
name = "a"
columns = ["x", "y"]
[[view]]
name = "b"
columns = ["y", "z"]
[[view]]
name = "v"
over = ["a", "b"]
join = [["a.y", "b.y"]]
keep = [["x", "a.x"], ["z", "b.z"]]
====
g:int x:int 
g:int n:int t:int 
 join
 where true
 group 0
 sum 1
----
[[view]]
name = "a"
columns = ["g", "x"]
[[view]]
name = "s"
over = ["a"]
group = [["g", "a.g"]]
count = "n"
sum = [["t", "a.x"]]
====
x:int y:int 
n:int 
 join
 where true
 group
 sum
n:int s:int 
 join
 where true
 group
 sum 0
----
[[view]]
name = "a"
columns = ["x:int", "y"]
join = 3
keep = 3
[[view]]
name = "v"
over = ["a"]
columns = 3
join = []
where = ["all"]
group = []
count = "n"
sum = []
[[view]]
name = "w"
over = ["v"]
group = []
count = "n"
sum = [["s", "v.n"]]
====
x:int y:int 
a:int b:int c:int d:int e:int f:int g:int 
 join 0=1 1=0
 where false
 keep -6 5 31 1000 1 9223372036854775807 -9223372036854775808
b:int 
 join
 where true
 keep 1
----
view = [
  { name = "a", columns = ["x", "y"] },
  { name = "v", over = ["a"], count = 3, sum = 3, join = [["a.x", "a.y"], ["a.y", "a.x"]], where = ["any"], keep = [
    ["a", ["-", "a.y", 7]],
    ["b", ["+", ["*", "a.y", 5], "a.x"]],
    ["c", 0x1F],
    ["d", 1_000],
    ["e", +1],
    ["f", 9223372036854775807],
    ["g", -9223372036854775808],
  ] },
  { name = "w", over = ["a", "v"], where = ["not", ["any", ["<>", "a.x", 0], [">=", "a.x", "a.y"], ["<", 3, 2]]], keep = [["b", "a.y"]] },
]
====
x:int 
p:int 
 join
 where false
 keep 0
p:int 
 join
 where true
 keep 0
----
[[view]]
name = "a"
columns = ["x"]
[[view]]
name = "v"
over = ["a"]
where = [">", ["*", "a.x", "a.x"], 0]
keep = [["p", ["*", "a.x", "a.x"]]]
[[view]]
name = "w"
over = ["a"]
where = ["<", "a.x", 3037000500]
keep = [["p", ["*", "a.x", "a.x"]]]
====
k:text n:int 
k:text c:text d:text 
 join
 where true
 keep 0 2 1
k:text n:int 
 join 0=0
 where false
 group 0
 sum
q
p
r
s
----
[[view]]
name = "t"
columns = ["k:text", "n:int"]
[[view]]
name = "v"
over = ["t"]
keep = [["k", "t.k"], ["c", { text = "r" }], ["d", { text = "p" }]]
where = ["any", ["=", "t.k", { text = "q" }], ["<>", { text = "p" }, "t.k"]]
[[view]]
name = "w"
over = ["t"]
where = ["all", ["=", { text = "s" }, { text = "q" }]]
join = [["t.k", "t.k"]]
group = [["k", "t.k"]]
count = "n"
"#;
