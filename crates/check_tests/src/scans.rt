//! What check files find amiss in inputs, and what they leave of the variables.
use crate::rows::each_row_holds;
use tt_base::NoMemory;

const IN_ORDER: &str = "~~~CHECK: a/CHECK: {{b~~1 refused at 0
~~{{b~CHECK: a/CHECK: b~~2 refused at 0
~~~CHECK: [[#%x,N:]]/CHECK: [[#N+1]]~a b~N=10 
~~~CHECK: [[#N+1]]/CHECK: [[#%x,N:]]~1~0 undefined N; 
~~~CHECK: [[#%x,N:]]/CHECK: [[#%d,M:]]/CHECK: [[#N+M]]~~2 refused at 5
~~~CHECK{LITERAL}: {{b/CHECK: c~{{b c~
~~~CHECK: [[A:a]][[B:b]]/CHECK: [[A]]~aba~A=a B=b 
f~~~CHECK: aB~xAbx~
~~~CHECK: aB~xAbx~0 not found from 0, 0 done; 
t~~~CHECK: ab~xab/ab~
t~~~CHECK: ab~xab~0 not found from 0, 0 done; 
t~~~CHECK: a/CHECK-NOT: b~a/xbx~1 excluded 3; ";

#[test]
fn bodies_are_read_in_order(rt: HostRuntime) -> Result<(), NoMemory> {
    each_row_holds(&rt, rt.alloc(), IN_ORDER)
}

const BEHIND: &str = "~~~CHECK: a/CHECK-NEXT: b/CHECK-SAME: c/CHECK-EMPTY:/CHECK: d~a/b c//d~
~X=old~~CHECK: a/CHECK-NOT: b/CHECK-NEXT: [[X:c]]~a/b/c~2 wrong line 4 behind 1, 2; X=old 
~~~CHECK: a/CHECK-NEXT: b~ab~1 wrong line 1 behind 1, 0; 
~~~CHECK: a/CHECK-SAME: b~a/b~1 not same line 2 behind 1; 
~~~CHECK: a/CHECK-EMPTY:~a/b//~1 wrong line 4 behind 1, 2; 
~~~CHECK: a/CHECK-EMPTY:~a/~
~~~CHECK: a/CHECK-EMPTY:~a~1 not found from 1, 0 done; 
~X=old~~CHECK-COUNT-3: {{.}}[[X:[a-c]]]~1a2b~0 not found from 4, 2 done; X=b 
~~~CHECK-COUNT-3: a/CHECK-NOT: x/CHECK: b~axaxaxb~1 excluded 5; 
~~~CHECK-COUNT-3: a/CHECK: b~aaab~
~~~CHECK-COUNT-3: {{[0-9]+}},/CHECK: b~1,22,333,b~
~~~CHECK-COUNT-4: {{[0-9]+}},~1,22,333,b~0 not found from 9, 3 done; 
~X=a~~CHECK-COUNT-2: <[[X]]>[[X:[a-z]]]~<a>b<b>c~X=c 
~~~CHECK: [[#div(1,0)]]~1~0 zero divisor; 
~~~CHECK: [[X]]~a~0 undefined X; ";

#[test]
fn directives_are_met_one_behind_the_other(rt: HostRuntime) -> Result<(), NoMemory> {
    each_row_holds(&rt, rt.alloc(), BEHIND)
}

const GROUPS: &str =
    "~~~CHECK-DAG: cd/CHECK-DAG: ab/CHECK-DAG: {{b.c|_}}/CHECK: [[X:_]]~ab_cd _~X=_ 
~~~CHECK-DAG: abc/CHECK-DAG: {{x*}}/CHECK-DAG: {{x*}}/CHECK: abc~abc/abc~
~X=old~~CHECK-DAG: [[X:a]]/CHECK-DAG: z[[X]]/CHECK: b~a/b~1 not found from 0, 0 done; X=a 
~~~CHECK-DAG: a/CHECK-DAG: a/CHECK-DAG: a~aa~2 not found from 2, 0 done; 
~~~CHECK-DAG: {{a+}}/CHECK-DAG: {{a+}}/CHECK-DAG: {{a+}}/CHECK: c~aa b a b aaa c~
~~~CHECK-DAG: {{a+}}/CHECK-DAG: {{a+}}/CHECK-DAG: {{a+}}~aa b a~2 not found from 6, 0 done; 
~~~CHECK-DAG: b/CHECK-DAG: a/CHECK: c~a b c~
~~~CHECK: s/CHECK-DAG: b/CHECK-DAG: a/CHECK: b~s a b~3 not found from 5, 0 done; 
~~~CHECK-DAG: a/CHECK-NOT: x/CHECK-DAG: b~b a x b~1 excluded 4; ";

#[test]
fn groups_share_no_bytes_and_bind_as_they_match(rt: HostRuntime) -> Result<(), NoMemory> {
    each_row_holds(&rt, rt.alloc(), GROUPS)
}

const REGIONS: &str = "~X=q~~CHECK: s/CHECK-NOT: [[X]]/CHECK: <[[X:x]]>~s x <x>~1 excluded 2; X=x 
~~~CHECK: s/CHECK-NOT: y/CHECK-NOT: n/CHECK-NOT: [[Y]]/CHECK-DAG: y/CHECK-DAG: x/CHECK: e~s n x m y e~2 excluded 2; 3 undefined Y; 
~~q~CHECK: a/CHECK-NOT: p/CHECK: b~a p q b q~3 excluded 4; 1 excluded 2; 
~~q~CHECK: a~a q~1 excluded 2; 
~~q~CHECK: a~q a~1 excluded 0; 
~~q~CHECK-LABEL: f/CHECK-NOT: {{^}}/CHECK-LABEL: g~fg q~1 excluded 1; 3 excluded 3; 
~~~CHECK: a/CHECK-NOT: b~a c b~1 excluded 4; 
~~~CHECK: a/CHECK-NOT: b/CHECK: c~a c b~";

#[test]
fn regions_are_tested_behind_the_match_that_closes_them(rt: HostRuntime) -> Result<(), NoMemory> {
    each_row_holds(&rt, rt.alloc(), REGIONS)
}

const BLOCKS: &str = "~~~CHECK-LABEL: f/CHECK: b/CHECK-NOT: x/CHECK-LABEL: {{^}}x/CHECK: y~f bx/x y~
~X=old~~CHECK: zz/CHECK-LABEL: f/CHECK: [[X:a]]/CHECK-LABEL: g/CHECK: f~f a~0 not found from 0, 0 done; 3 not found from 1, 0 done; X=old 
s~V=v~~CHECK-LABEL: f/CHECK: [[X:a]] [[Y:b]]/CHECK: no/CHECK-LABEL: g/CHECK: [[Z:c]]~f/a b/g c~2 not found from 5, 0 done; Z=c 
~~~CHECK-LABEL: f/CHECK: [[X:a]] [[$G:b]]/CHECK-LABEL: g/CHECK: [[$G]]/CHECK: [[X]]~f/a b/g/b/a/~X=a $G=b 
s~~~CHECK-LABEL: f/CHECK: [[X:a]] [[$G:b]]/CHECK-LABEL: g/CHECK: [[$G]]/CHECK: [[X]]~f/a b/g/b/a/~4 undefined X; $G=b ";

#[test]
fn labels_cut_the_input_into_blocks(rt: HostRuntime) -> Result<(), NoMemory> {
    each_row_holds(&rt, rt.alloc(), BLOCKS)
}
