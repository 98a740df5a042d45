// What A does with GO, and W with UP, a statement behind each `/`; a letter for each message; and what the last of them does.
pub const ROWS: &str = "\
n := (4294967290 + 10)~~g -> A0() Invalid 5 (4294967295 false @0 {})\n\
n := (2 - i) / b := ((i <= 3) & (2 < i))~~g -> A0() Invalid 5 (0 true @0 {})\n\
b := (Not((i < 3)) | False) / n := Count(l)~~g -> A0() Invalid 5 (2 true @0 {})\n\
d := src / s := With(One(self), home)~~g -> A0() Invalid 5 (0 false @3 {12})\n\
s := Without(l, self) / b := (s <> l) / d := home~~g -> A0() Invalid 5 (0 true @2 {4})\n\
b := (Has(l, k) = (k = home))~~g -> A0() Invalid 5 (0 true @0 {})\n\
If j / Begin / n := 1 / If (i = 4) / Begin / n := 2 / End / Else / Begin / d := self / End / End / Else / Begin / n := 9 \
    / End / b := True~~g -> A0() Invalid 5 (1 true @1 {})\n\
Send(src, UP) / Send(home, GO, 7, b, self, Empty) / Install / Send(k, GO, (i + n), True, d, l)~~g -> A0() Invalid 9 (0 \
    false @0 {}) UP>3() GO>2(7 false @1 {})+5 GO>3(3 true @0 {14})+9\n\
SendAll(Empty, UP) / SendAll(l, UP)~~g -> A0() Invalid 5 (0 false @0 {}) UP>1() UP>4()\n\
SendAll(l, UP)~~a -> A0() Invalid 5 (0 false @0 {}) UP>0() UP>1() UP>2() UP>3() UP>4() UP>5() UP>6() UP>7()\n\
SetTag(ReadOnly) / WakeUp~~g -> A0() ReadOnly 5 (0 false @0 {}) woke\n\
~~u -> A0() Invalid 5 (0 false @0 {}) woke\n\
Error(Bad)~~r -> A0() Invalid 5 (0 false @0 {})\n\
Enqueue / SetState(A{})~~g -> A0() Invalid 5 (0 false @0 {}) eligible freed\n\
SetState(A{}) / Enqueue~~g -> A0() Invalid 5 (0 false @0 {}) stale freed\n\
Local x Int / Local y Node / Local z Set / n := x / s := z / d := y / y := src / d := y~~g -> A0() Invalid 5 (0 false @3 \
    {})\n\
If b / Begin / Error(Bad) / End / n := 1 / Error(Worse) / n := 2~~g -> A0() Invalid 5 (1 false @0 {}) failed 1\n\
n := i / Suspend(L, W{(n + 1); L}) / n := (n + i) / SendAll(l, UP) / d := src / SetState(A{})~n := (x + 1) / Enqueue / \
    Resume(C)~g -> W1(4) Invalid 5 (3 false @0 {})\n\
n := i / Suspend(L, W{(n + 1); L}) / n := (n + i) / SendAll(l, UP) / d := src / SetState(A{})~n := (x + 1) / Enqueue / \
    Resume(C)~gr -> W1(4) Invalid 5 (3 false @0 {}) stale\n\
n := i / Suspend(L, W{(n + 1); L}) / n := (n + i) / SendAll(l, UP) / d := src / SetState(A{})~n := (x + 1) / Enqueue / \
    Resume(C)~gu -> A0() Invalid 5 (8 false @3 {}) UP>1() UP>4() eligible freed\n\
n := i / Suspend(L, W{(n + 1); L}) / n := (n + i) / SendAll(l, UP) / d := src / SetState(A{})~SetState(W{9})~gu -> W1(9) \
    Invalid 5 (3 false @0 {}) freed\n\
Suspend(L, W{0; L}) / n := (n + 1)~Resume(C)~gggggggg -> W8(3) Invalid 5 (0 false @0 {})\n\
Suspend(L, W{0; L}) / n := (n + 1)~Resume(C)~ggggggggg -> W8(3) Invalid 5 (0 false @0 {}) too deep\n\
Suspend(L, W{0; L}) / n := (n + 1)~Resume(C)~ggggggggu -> W7(3) Invalid 5 (1 false @0 {}) freed\n\
Suspend(L, W{0; L}) / n := (n + 1)~Resume(C)~gggggggguuuuuuuu -> A0() Invalid 5 (8 false @0 {}) freed";

// The same under profile 2.
pub const LOOP_ROWS: &str = "\
Local y Node / ForEach y l / Begin / n := (n + 1) / Send(y, UP) / End / d := y~~g -> A0() Invalid 5 (2 false @4 {}) \
    UP>1() UP>4()\n\
Local y Node / ForEach y l / Begin / n := (n + 1) / Send(y, UP) / End / d := y~~e -> A0() Invalid 5 (0 false @0 {})\n\
Local y Node / ForEach y l / Begin / n := (n + 1) / Send(y, UP) / End / d := y~~a -> A0() Invalid 5 (8 false @7 {}) \
    UP>0() UP>1() UP>2() UP>3() UP>4() UP>5() UP>6() UP>7()\n\
Local y Node / ForEach y l / Begin / Send(y, UP) / Suspend(L, W{n; L}) / n := (n + 1) / End / d := y / \
    Install~Resume(C)~g -> W1(0) Invalid 5 (0 false @0 {}) UP>1()\n\
Local y Node / ForEach y l / Begin / Send(y, UP) / Suspend(L, W{n; L}) / n := (n + 1) / End / d := y / \
    Install~Resume(C)~gu -> W1(1) Invalid 5 (1 false @0 {}) UP>4() freed\n\
Local y Node / ForEach y l / Begin / Send(y, UP) / Suspend(L, W{n; L}) / n := (n + 1) / End / d := y / \
    Install~Resume(C)~guu -> A0() Invalid 9 (2 false @4 {}) freed\n\
Local y Node / ForEach y l / Begin / Send(y, UP) / Suspend(L, W{n; L}) / n := (n + 1) / End / d := y / \
    Install~Resume(C)~e -> A0() Invalid 9 (0 false @0 {})\n\
Local y Node / ForEach y l / Begin / Send(y, UP) / Suspend(L, W{n; L}) / n := (n + 1) / End / d := y / \
    Install~Resume(C)~auuuuuuuu -> A0() Invalid 9 (8 false @7 {}) freed\n\
Local y Node / Local z Node / ForEach y l / Begin / ForEach z l / Begin / If (y = z) / Begin / n := (n + 10) / End / Else \
    / Begin / n := (n + 1) / End / End / End~~g -> A0() Invalid 5 (22 false @0 {})\n\
Local y Node / s := l / ForEach y s / Begin / s := Without(s, y) / n := (n + Count(s)) / End~~g -> A0() Invalid 5 (1 \
    false @0 {})";
