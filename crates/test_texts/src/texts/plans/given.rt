// Plans over bases A and B and V over both, each with what it says or its first fault.

pub(crate) const PLAN_ALL: &str = "scope all
work 154
comp V from B
inst B
comp V from A
inst A
inst V
pair V B A 80
";

// What is read: the scope, the work, the list, and each pair or node by the numbers of its views, a cycle's expressions
// below it.
pub(crate) const PLANS: &str = "all 154
comp V from B
inst B
comp V from A
inst A
inst V
pair 2 1 0 80
----
scope all
work 154
comp V from B
inst B
comp V from A
inst A
inst V
pair V B A 80
====
all 154
inst V
pair 0 2 1 80
pair 0 2 1 80
----

 \tscope\tall

  work 0154
 inst  V

pair A V B 080
pair A V B 80====
all 340282366920938463463374607431768211455
----
scope all
work 340282366920938463463374607431768211455
====
all 0
pair 2 1 0 340282366920938463463374607431768211455
----
scope all
work 0
pair V B A 340282366920938463463374607431768211455
====
one-way 490
bound
----
scope one-way
work 490
bound
====
one-way 0
comp V from A B
branch 2 2
cycle
comp V from B A
inst A
cycle
inst B
inst V
inst A
----

\tscope one-way
work 00
comp V from A B

 branch  V V\t
cycle \tcomp V from B A ;inst A

cycle inst B;inst V; inst\tA====
one-way 7
branch 1 0
branch 0 1
bound
bound
bound
----
scope one-way
work 7
branch B A
branch A B
bound
bound
bound
";

// Plans that are cut, doubled or in another order. A plan that ends too early names the line after its last, blank lines
// counted.
pub(crate) const FAULTS: &str = "9 fault plan 1
----
====
9 fault plan 2
----
scope all====
9 fault plan 2
----
scope all
====
9 fault plan 4
----

scope all

====
9 fault plan 1
----
work 154
scope all
====
9 fault plan 2
----
scope all
scope all
work 154
====
9 fault plan 3
----
scope all
work 154
work 154
====
9 fault plan 9
----
scope all
work 154
comp V from B
inst B
comp V from A
inst A
inst V
pair V B A 80
scope all
====
9 fault plan 4
----
scope all
work 154
pair V B A 80
inst V
====
9 fault plan 2
----
scope all
comp V from B
work 154
====
9 fault plan 3
----
scope one-way
work 490
====
9 fault plan 5
----
scope one-way
work 490
inst V

====
9 fault plan 3
----
scope one-way
work 490
pair V B A 80
bound
====
9 fault plan 4
----
scope one-way
work 490
bound
inst V
====
9 fault plan 4
----
scope one-way
work 490
branch A B
inst V
bound
bound
====
9 fault plan 5
----
scope one-way
work 490
bound

bound
====
9 fault plan 5
----
scope one-way
work 490
cycle inst A
\t
pair V B A 80
====
9 fault plan 6
----
scope one-way
work 490
branch A B
bound
bound
foo
====
9 fault plan 5
----
scope one-way
work 490
branch A B
bound
====
9 fault plan 3
----
scope one-way
work 490
cycle
====
9 fault plan 3
----
scope one-way
work 490
cycle inst A;
====
9 fault plan 3
----
scope one-way
work 490
cycle ; inst A
====
9 fault plan 3
----
scope one-way
work 490
cycle inst A;; inst B
====
9 fault plan 3
----
scope one-way
work 490
cycle; inst A
====
9 fault plan 3
----
scope one-way
work 490
cycle inst A, inst B
====
9 fault plan 3
----
scope one-way
work 490
cycle inst Q
====
9 fault plan 3
----
scope one-way
work 490
cycle inst A; comp V from
====
9 fault plan 3
----
scope one-way
work 490
bound A
====
9 fault plan 3
----
scope one-way
work 490
branch A
====
9 fault plan 3
----
scope one-way
work 490
branch A B V
====
9 fault plan 3
----
scope one-way
work 490
branch A Q
====
9 fault plan 3
----
scope one-way
work 490
branch Q A
====
9 fault plan 2
----
scope one-way
bound
====
9 fault plan 1
----
bound
====
9 fault plan 1
----
scope one way
work 1
====
9 fault plan 1
----
scope oneway
work 1
====
9 fault plan 3
----
scope all
work 1
cycle inst A
====
9 fault plan 4
----
scope all
work 1
pair V B A 80
branch A B
====
9 fault plan 1
----
scope All
work x
====
9 fault plan 1
----
scope
work x
====
9 fault plan 1
----
scope all x
work x
====
9 fault plan 1
----
scope all\r
work x
====
9 fault plan 2
----
scope all
work
====
9 fault plan 2
----
scope all
work -1
foo
====
9 fault plan 2
----
scope all
work +1
foo
====
9 fault plan 2
----
scope all
work 340282366920938463463374607431768211456
foo
====
9 fault plan 3
----
scope all
work 1
inst Q
pair V B A x
====
9 fault plan 3
----
scope all
work 1
pair V B A
====
9 fault plan 3
----
scope all
work 1
pair V B A 80 1
====
9 fault plan 3
----
scope all
work 1
pair V B Q 80
====
9 fault plan 4
----
scope all
work 1
pair V B A 80
pair V B A 340282366920938463463374607431768211456
====
9 fault plan 4
----
scope all
work 1

bound
====
9 fault plan 1
----
\u{ff}
";
