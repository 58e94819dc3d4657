// Tables and changes, each with what it says or its first fault.

// Tables of x and y.
pub(crate) const TABLES: &str = "#,x,y
1,1,10
1,2,10
----
x,y
1,10
2,10
====
#,x,y
5,1,10
1,2,10
----
#,x,y
2,1,10
1,2,10
3,1,10
====
#,x,y
----
#,x,y
====
#,x,y
2,-3,4
1,2,-9223372036854775808
1,2,9223372036854775807
----
x,y
2,+9223372036854775807
-3,4
2,-9223372036854775808
-03,\"004\"====
#,x,y
2,0,5
----
\u{ef}\u{bb}\u{bf}\r
\"x\",\"y\"\r
\r
-0,5\r

0,+5\r
====
#,x,y
9223372036854775807,1,1
9223372036854775807,1,2
----
#,x,y
9223372036854775806,1,1
1,1,1
9223372036854775807,1,2
====
7 fault header
----
====
7 fault header
----

\r
====
7 fault header
----
x
1,2,3
====
7 fault header
----
y,x
1
====
7 fault header
----
x,y,#
1
====
7 fault header
----
#,x
1
====
7 fault header
----
# ,x,y
1
====
7 fault header
----
x,Y
z
====
5 fault csv 1
----
\u{ff}
1,2
====
5 fault csv 2
----
x,y
1
1,z
====
6 fault number 2
----
x,y
1,z
1
====
5 fault csv 2
----
x,y
1,z,3
====
5 fault csv 2
----
x,y
z,\u{ff}
====
5 fault csv 2
----
x,y
 
1,z
====
6 fault number 3
----
#,x,y
1,1,1
0,1,1
1
====
6 fault number 2
----
#,x,y
-1,1,1
1
====
5 fault csv 2
----
#,x,y
0,1
1,1,z
====
6 fault number 3
----
#,x,y
9223372036854775807,1,1
1,1,1
1,1
====
5 fault csv 3
----
#,x,y
9223372036854775807,1,1
1,1
1,1,1
====
6 fault number 4
----
#,x,y
9223372036854775807,1,1
1,2,1
1,1,z
1,1,1
====
6 fault number 4
----
#,x,y
9223372036854775807,1,1
1,2,1
1,01,+1
1,1,z
====
6 fault number 3
----


x,y

1,2
\r

1,z
1
====
6 fault number 3
----
x,y\r1,2\r3,z\r4
====
6 fault number 3
----
x,y
\"1\",\"2\"
\"3,4\",5
6
====
6 fault number 2
----
x,y
1\",2
3
====
6 fault number 3
----
x,y
1,2
3,\"4
5
";

// Numbers of other forms, each before a record of another length.
pub(crate) const NUMBERS: &str = "6 fault number 2
----
9223372036854775808,1
1
====
6 fault number 2
----
-9223372036854775809,1
1
====
6 fault number 2
----
,1
1
====
6 fault number 2
----
+,1
1
====
6 fault number 2
----
+-1,1
1
====
6 fault number 2
----
 1,1
1
====
6 fault number 2
----
1 ,1
1
====
6 fault number 2
----
1_0,1
1
====
6 fault number 2
----
0x1,1
1
====
6 fault number 2
----
1e3,1
1
====
6 fault number 2
----
1.0,1
1
";

// Changes of x and y, written as tables are.
pub(crate) const CHANGES: &str = "#,x,y
-1,2,10
1,3,10
----
#,x,y
-1,2,10
+1,3,10
====
#,x,y
3,1,1
----
#,x,y
5,1,1
-2,2,2
-2,1,1
+02,2,2
====
#,x,y
-9223372036854775808,1,1
----
#,x,y
-9223372036854775808,1,1
====
7 fault header
----
x,y
1,2,3
====
6 fault number 2
----
#,x,y
0,1,1
1,1
====
6 fault number 3
----
#,x,y
+9223372036854775807,1,1
+1,1,1
-5,1,1
1,1
====
6 fault number 3
----
#,x,y
-9223372036854775808,1,1
-1,1,1
0,1,1
====
6 fault number 5
----
#,x,y
+9223372036854775807,1,1
-9223372036854775807,1,1
+9223372036854775807,1,1
+1,1,1
1,1
====
5 fault csv 2
----
#,x,y
1,1
0,1,1
====
6 fault number 2
----
#,x,y
-9223372036854775809,1,1
1,1
";

// Tables of a text k and a number n: a text's number is that of its first appearance, and quotes stand where they must.
pub(crate) const TEXTS: &str = "#,k,n
1,b,2
2,a,1
1,a,3
----
k,n
b,2
a,1
a,3
a,1
====
#,k,n
1,\"b,c\",1
1,\"say \"\"hi\"\"\",2
1,\"two
lines\",3
1,\"cr\r\",4
1,plain,5
1,,6
1, gap ,7
1,\u{c3}\u{a4},8
1,\"b\"\"\",9
1,qc,10
----
k,n
\"b,c\",1
\"say \"\"hi\"\"\",2
\"two
lines\",3
\"cr\r\",4
\"plain\",5
,6
 gap ,7
\u{c3}\u{a4},8
b\",9
\"q\"c,10
====
5 fault csv 2
----
k,n
\u{c3},z
====
6 fault number 2
----
k,n
a,b
a
";

// Of worked examples: the tables of b and v of one, the table and the changes of a of the other.
pub(crate) const NIGHT_B: &str = "#,y,z\n1,10,5\n----\ny,z\n10,5\n";

pub(crate) const NIGHT_V: &str = "#,x,z\n1,1,6\n1,3,6\n----\nx,z\n3,6\n1,6\n";

pub(crate) const NIGHT_CHANGES: &str = "#,y,z\n-1,10,5\n1,10,6\n----\n#,y,z\n-1,10,5\n+1,10,6\n";

pub(crate) const SUMMARY_TABLE: &str = "#,g,x\n1,1,5\n1,2,3\n1,2,4\n----\ng,x\n1,5\n2,3\n2,4\n";

pub(crate) const SUMMARY_CHANGES: &str =
    "#,g,x\n-1,1,5\n1,2,-3\n-1,2,4\n----\n#,g,x\n-1,1,5\n-1,2,4\n1,2,-3\n";
