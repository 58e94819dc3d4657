// Schedules over a base a, view 0, and v over it, view 1, each with what it says or its first fault.

// Heads and numbers at their limits, blanks, and words that name no view.
pub(crate) const SCHEDULES: &str = "1 1 1 2
----
desks 1
workers 1
keys 1
====
16 16 256 2
worker 0 draws
worker 1000000 is done
desk 7 comes
desk 0 reads 0 of 1
desk 1000000 goes
----

 \tdesks\t016
workers  00000016 \t
\t
keys 0000000000000000000000000000000000000000256
take 0
 done\t1000000

open 007
read 0 v 0
close 001000000
====
2 1 3 2
night
desk 1 reads 1000000 of no view
desk 1 reads 5 of no view
desk 1 reads 5 of no view
desk 1 reads 5 of no view
----
desks 2
workers 1
keys 3
begin
read 1 zz 1000000
read 1 A 5
read 1 9.\u{ff} 5
read 1 v\r 5
====
1 1 1 3
----
desks 1
workers 1
keys 1
versions 3
====
2 1 256 4
desk 0 comes
night
----
desks 2
workers 1
keys 256

 versions\t004

open 0
begin
====
1 1 1 2
old
----
desks 1
workers 1
keys 1
versions 2
giveup
====
9 fault schedule 1
----
====
9 fault schedule 3
----
 \t

====
9 fault schedule 2
----
desks 2====
9 fault schedule 3
----
desks 2
workers 1
====
9 fault schedule 4
----
desks 2
workers 1

";

// Lines below the head `desks 2`, `workers 1`, `keys 256`.
pub(crate) const FAULTS: &str = "9 fault schedule 4
----
versions 1
====
9 fault schedule 4
----
versions 0
====
9 fault schedule 4
----
versions 5
begin
====
9 fault schedule 5
----

versions 5
begin
====
9 fault schedule 4
----
versions
====
9 fault schedule 4
----
versions 2 3
====
9 fault schedule 4
----
versions +3
====
9 fault schedule 4
----
version 3
====
9 fault schedule 5
----
versions 3
versions 3
====
9 fault schedule 5
----
begin
versions 3
====
9 fault schedule 5
----
versions 3
keys 256
====
9 fault schedule 6
----
versions 3
begin
foo
====
9 fault schedule 5
----
begin
desks 2
====
9 fault schedule 4
----
workers 1
====
9 fault schedule 4
----
keys 256
====
9 fault schedule 4
----
begin 0
====
9 fault schedule 4
----
page 1
====
9 fault schedule 4
----
Begin
====
9 fault schedule 4
----
begin\r
====
9 fault schedule 5
----

commit commit
====
9 fault schedule 4
----
giveup 0
====
9 fault schedule 4
----
give up
====
9 fault schedule 4
----
take
====
9 fault schedule 4
----
take 0 0
====
9 fault schedule 4
----
take -1
====
9 fault schedule 4
----
take +1
====
9 fault schedule 4
----
take 1000001
====
9 fault schedule 4
----
take 18446744073709551616
====
9 fault schedule 4
----
take 340282366920938463463374607431768211456
====
9 fault schedule 4
----
take x
====
9 fault schedule 4
----
done
====
9 fault schedule 4
----
done 0x1
====
9 fault schedule 4
----
open a
====
9 fault schedule 4
----
open 0 a
====
9 fault schedule 4
----
close
====
9 fault schedule 4
----
close 1000001
====
9 fault schedule 4
----
read 0
====
9 fault schedule 4
----
read 0 a
====
9 fault schedule 4
----
read a 0 10
====
9 fault schedule 4
----
read 0 a 10 10
====
9 fault schedule 4
----
read 0 a 1000001
====
9 fault schedule 4
----
read 1000001 a 1
====
9 fault schedule 4
----
reads 0 a 1
====
9 fault schedule 4
----
\u{ff}
";

// Of two lines that may not stand where they do, the upper one is told.
pub(crate) const TWO_FAULTS: &str = "9 fault schedule 1
----
desks 0
workers 0
====
9 fault schedule 1
----
desks 17
workers 1
keys 257
====
9 fault schedule 1
----
desks
foo
====
9 fault schedule 1
----
desks 2 2
foo
====
9 fault schedule 1
----
workers 1
desks 2
keys 256
====
9 fault schedule 2
----
desks 2
keys 256
workers 1
====
9 fault schedule 2
----
desks 2
workers 17
keys 0
====
9 fault schedule 2
----
desks 2
workers 0
====
9 fault schedule 2
----
desks 2
begin
foo
====
9 fault schedule 2
----
desks 2
desks 2
foo
====
9 fault schedule 3
----
desks 2
workers 1
keys 257
foo
====
9 fault schedule 4
----
desks 2
workers 1

keys 0
foo
====
9 fault schedule 4
----
desks 2
workers 1

versions 2
====
9 fault schedule 4
----
desks 2
workers 1
keys 256
versions 5
versions 5
====
9 fault schedule 6
----
desks 2
workers 1
keys 256
begin

foo
read 0 a
";

// The schedules of `replay_two_nights`, `replay_give_up`, `replay_one_key_a_page`, `replay_refusals`, `replay_three_versions` and
// `replay_too_many_versions`.
pub(crate) const EXAMPLES: &str = "2 1 256 2
desk 0 comes
night
worker 0 draws
worker 0 is done
put
desk 0 reads 10 of 0
put
new
desk 0 reads 10 of 1
desk 1 comes
night
desk 0 reads 10 of 1
desk 1 reads 10 of 1
----
desks 2
workers 1
keys 256
open 0
begin
take 0
done 0
page
read 0 a 10
page
commit
read 0 v 10
open 1
begin
read 0 v 10
read 1 v 10
====
3 1 256 2
desk 0 comes
night
put
new
desk 1 comes
night
put
old
desk 0 reads 10 of 0
desk 1 reads 10 of 0
desk 2 comes
desk 2 reads 10 of 0
----
desks 3
workers 1
keys 256
open 0
begin
page
commit
open 1
begin
page
giveup
read 0 a 10
read 1 a 10
open 2
read 2 a 10
====
2 1 1 2
desk 0 comes
night
desk 0 reads 1 of 0
put
desk 0 reads 1 of 0
put
desk 0 reads 1 of 0
new
put
new
desk 0 reads 10 of 0
desk 1 comes
desk 1 reads 10 of 0
----
desks 2
workers 1
keys 1
open 0
begin
read 0 a 1
page
read 0 a 1
page
read 0 a 1
commit
page
commit
read 0 a 10
open 1
read 1 a 10
====
1 1 256 2
put
worker 1 draws
desk 0 reads 1 of 0
desk 0 comes
desk 0 comes
desk 0 reads 0 of no view
desk 0 reads 0 of 0
night
night
worker 0 is done
put
worker 0 draws
worker 0 draws
worker 0 is done
worker 0 draws
new
desk 0 goes
desk 0 goes
desk 1 comes
----
desks 1
workers 1
keys 256
page
take 1
read 0 a 1
open 0
open 0
read 0 zz 0
read 0 a 0
begin
begin
done 0
page
take 0
take 0
done 0
take 0
commit
close 0
close 0
open 1
====
3 1 256 3
desk 0 comes
night
put
new
desk 1 comes
night
desk 0 reads 10 of 0
put
new
desk 0 reads 10 of 0
night
desk 0 reads 10 of 0
desk 1 reads 10 of 0
put
old
desk 1 reads 10 of 0
desk 2 comes
desk 2 reads 10 of 0
----
desks 3
workers 1
keys 256
versions 3
open 0
begin
page
commit
open 1
begin
read 0 a 10
page
commit
read 0 a 10
begin
read 0 a 10
read 1 a 10
page
giveup
read 1 a 10
open 2
read 2 a 10
====
9 fault schedule 4
----
desks 3
workers 1
keys 256
versions 5
open 0
begin
page
commit
open 1
begin
read 0 a 10
page
commit
read 0 a 10
begin
read 0 a 10
read 1 a 10
page
giveup
read 1 a 10
open 2
read 2 a 10
";
