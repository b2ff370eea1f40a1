// The programs of the folder `examples/` about messages, with what they print.

use crate::case::{Case, Freely, QUIET};

const BARRIER_TO_BROADCAST: &[Case] = &[
    // barrier.join
    Case {
        words: &["alone"],
        text: &[(
            1,
            r"# Three runners meet at a barrier: its join pattern waits for all three messages, and then calls all three back.
# Look at the output: no `starts` comes before the last `ready`, though one runner takes a step more to get ready.
observe ready/1; observe starts/1;
site barrier [
  meet_anna(a) | meet_ben(b) | meet_cleo(c) => a() | b() | c()
  : 0
]
site anna [
  anna_runs() => starts(anna)
  : ready(anna) | meet_anna(anna_runs)
]
site ben [
  tie_shoes() => ready(ben) | meet_ben(ben_runs) and
  ben_runs() => starts(ben)
  : tie_shoes()
]
site cleo [
  cleo_runs() => starts(cleo)
  : ready(cleo) | meet_cleo(cleo_runs)
]
",
        )],
        out: r"ready(anna)
ready(cleo)
ready(ben)
starts(anna)
starts(ben)
starts(cleo)
quiescent
",
        events: Some(5),
        freely: Freely::Before(&[
            ("ready(anna)", "ready(cleo)"),
            ("ready(cleo)", "ready(ben)"),
            ("ready(ben)", "starts(anna)"),
            ("ready(ben)", "starts(ben)"),
            ("ready(ben)", "starts(cleo)"),
        ]),
        ..QUIET
    },
    // both.join
    Case {
        words: &["alone"],
        text: &[(
            1,
            r"# Asks two servers at once and goes on when both have answered. Look at `left(x) | right(y)`: each call of `book`
# makes two channels of its own, so the answers of one call can't be mixed with those of the other.
observe trip/2;
site agency [
  book(fly, stay, k) =>
    def left(x) | right(y) => k(x, y)
    in fly(left) | stay(right) and
  sold(x, y) => trip(x, y)
  : book(fly_north, stay_north, sold) | book(fly_south, stay_south, sold)
]
site airline [
  fly_north(k) => k(oslo_flight) and
  fly_south(k) => k(rome_flight) and
  oslo_flight() => 0 and
  rome_flight() => 0
  : 0
]
site inns [
  stay_north(k) => k(oslo_inn) and
  stay_south(k) => k(rome_inn) and
  oslo_inn() => 0 and
  rome_inn() => 0
  : 0
]
",
        )],
        out: r"trip(oslo_flight, oslo_inn)
trip(rome_flight, rome_inn)
quiescent
",
        events: Some(10),
        ..QUIET
    },
    // broadcast.join
    Case {
        words: &["alone"],
        text: &[(
            1,
            r"# A station sends each piece of news to all who have subscribed, without any list. Its one message `tell` holds a
# channel that reaches all so far; a new subscriber is added by a fresh channel that sends to that one and to it.
# Look at the output: each piece of news reaches the newest subscriber first, and then those before it.
observe heard/2;
site station [
  subscribe(ear, k) | tell(all) =>
    def more(news) => all(news) | ear(news)
    in tell(more) | k() and
  publish(news) | tell(all) => all(news) | tell(all) and
  nobody(news) => 0
  : tell(nobody)
]
site anna [
  ear_anna(news) => heard(anna, news) and
  then_ben() => subscribe(ear_ben, then_cleo)
  : subscribe(ear_anna, then_ben)
]
site ben [
  ear_ben(news) => heard(ben, news) and
  then_cleo() => subscribe(ear_cleo, on_air)
  : 0
]
site cleo [
  ear_cleo(news) => heard(cleo, news) and
  on_air() => publish(rain) | publish(sun) and
  rain() => 0 and
  sun() => 0
  : 0
]
",
        )],
        out: r"heard(cleo, rain)
heard(ben, rain)
heard(anna, rain)
heard(cleo, sun)
heard(ben, sun)
heard(anna, sun)
quiescent
",
        events: Some(22),
        freely: Freely::Before(&[
            ("heard(anna, rain)", "heard(anna, sun)"),
            ("heard(ben, rain)", "heard(ben, sun)"),
            ("heard(cleo, rain)", "heard(cleo, sun)"),
        ]),
        ..QUIET
    },
];

pub(crate) fn barrier_to_broadcast() -> &'static [Case] {
    BARRIER_TO_BROADCAST
}

const BUFFER_TO_CHOICE: &[Case] = &[
    // buffer.join
    Case {
        words: &["alone"],
        text: &[(
            1,
            r"# A buffer with two places, two producers and two consumers. A free place is a message `room`, a full one a message
# `item`: `put` needs a room and `take` an item. Four puts are asked for at once.
# Look at the output: there are never more than two `stored` ahead of `taken`.
observe stored/1; observe taken/2;
site shelf [
  put(v) | room() => stored(v) | item(v) and
  item(v) | take(who, k) => taken(who, v) | room() | k()
  : room() | room()
]
site baker [
  bread() => 0 and
  roll() => 0
  : put(bread) | put(roll)
]
site brewer [
  ale() => 0 and
  cider() => 0
  : put(ale) | put(cider)
]
site anna [
  anna_again() => take(anna, anna_full) and
  anna_full() => 0
  : take(anna, anna_again)
]
site ben [
  ben_again() => take(ben, ben_full) and
  ben_full() => 0
  : take(ben, ben_again)
]
",
        )],
        out: r"stored(bread)
stored(roll)
taken(anna, bread)
stored(ale)
taken(anna, roll)
stored(cider)
taken(ben, ale)
taken(ben, cider)
quiescent
",
        events: Some(12),
        freely: Freely::OneOf(&[
            r"stored(bread)
stored(roll)
taken(anna, bread)
stored(ale)
taken(ben, roll)
stored(cider)
taken(anna, ale)
taken(ben, cider)
quiescent
",
            r"stored(bread)
stored(roll)
taken(anna, bread)
stored(ale)
taken(ben, roll)
stored(cider)
taken(ben, ale)
taken(anna, cider)
quiescent
",
        ]),
        ..QUIET
    },
    // cell.join
    Case {
        words: &["alone"],
        text: &[(
            1,
            r"# A reference cell, made on request. What it holds is the argument of its one message `holds`: a reader or a writer
# takes that message and puts one back, so no two of them are ever at it together.
# Look at `new`: each cell has fresh names `holds`, `get` and `set`, and the client learns only the last two.
observe first/1; observe second/1;
site store [
  new(v, k) =>
    def holds(x) | get(r) => holds(x) | r(x)
    and holds(x) | set(y, r) => holds(y) | r()
    in holds(v) | k(get, set)
  : 0
]
site client [
  tea() => 0 and
  milk() => 0 and
  use(get, set) =>
    def old(x) => first(x) | set(milk, written)
    and written() => get(present)
    and present(x) => second(x)
    in get(old)
  : new(tea, use)
]
",
        )],
        out: r"first(tea)
second(milk)
quiescent
",
        events: Some(8),
        ..QUIET
    },
    // choice.join
    Case {
        words: &["alone"],
        text: &[(
            1,
            r"# One ticket and two rules that want it. Either may take it, and the other then waits for good.
# The language leaves open which one does. `alone` takes the rule that stands first, so it always prints the same.
observe seat/1;
site theatre [
  ticket() | ask_anna() => seat(anna) and
  ticket() | ask_ben() => seat(ben) and
  anna() => 0 and
  ben() => 0
  : ask_ben() | ask_anna() | ticket()
]
",
        )],
        out: r"seat(anna)
quiescent
",
        events: Some(1),
        ..QUIET
    },
];

pub(crate) fn buffer_to_choice() -> &'static [Case] {
    BUFFER_TO_CHOICE
}

const COUNTER_TO_LOCK: &[Case] = &[
    // counter.join
    Case {
        words: &["alone"],
        text: &[(
            1,
            r"# Counting without numbers. A number is a channel that takes two answers: zero calls the first one, and the successor
# of n, which is a fresh channel, hands n to the second one. The counter holds its number in one message `count`.
# Look at `print`: it goes down the number by recursion, with a fresh `rest` at each step and one line for each one.
observe one/0; observe end/0;
site counter [
  zero(none_left, some) => none_left() and
  count(n) | up(k) =>
    def successor(none_left, some) => some(n)
    in count(successor) | k() and
  count(n) | read(k) => count(n) | k(n)
  : count(zero)
]
site user [
  twice() => up(thrice) and
  thrice() => up(enough) and
  enough() => read(print) and
  print(n) =>
    def rest(m) => one() | print(m)
    in n(stop, rest) and
  stop() => end()
  : up(twice)
]
",
        )],
        out: r"one()
one()
one()
end()
quiescent
",
        events: Some(19),
        ..QUIET
    },
    // first.join
    Case {
        words: &["alone"],
        text: &[(
            1,
            r"# The smallest whole program. The message x(s) meets the rule x(u) => out(u): it is taken,
# and the body stands in its place with s for u. So out(s) appears, and out is observed.
observe out/1; site s [ x(u) => out(u) : x(s) ]
",
        )],
        out: r"out(s)
quiescent
",
        events: Some(1),
        ..QUIET
    },
    // lock.join
    Case {
        words: &["alone"],
        text: &[(
            1,
            r"# A lock is one message `free`. Whoever takes it gets the channel that gives it back, and nobody else can go in before.
# Look at the output: each `enters` is followed by the `leaves` of the same site, whatever the schedule.
observe enters/1; observe leaves/1;
site door [
  free() | lock(k) => k(unlock) and
  unlock() => free()
  : free()
]
site anna [
  anna_in(unlock) => enters(anna) | anna_out(unlock) and
  anna_out(unlock) => leaves(anna) | unlock()
  : lock(anna_in)
]
site ben [
  ben_in(unlock) => enters(ben) | ben_out(unlock) and
  ben_out(unlock) => leaves(ben) | unlock()
  : lock(ben_in)
]
",
        )],
        out: r"enters(anna)
leaves(anna)
enters(ben)
leaves(ben)
quiescent
",
        events: Some(8),
        ..QUIET
    },
];

pub(crate) fn counter_to_lock() -> &'static [Case] {
    COUNTER_TO_LOCK
}

const PHILOSOPHERS_TO_RING: &[Case] = &[
    // philosophers.join
    Case {
        words: &["alone"],
        text: &[(
            1,
            r"# Three philosophers and three forks. A philosopher takes both forks in one reaction, or none: nobody holds one fork
# and waits for the other, so they can't block each other. Look at the patterns of three messages at the table.
observe eats/1; observe thinks/1;
site table [
  fork_a() | fork_b() | seat_plato(k) => k() and
  fork_b() | fork_c() | seat_hume(k) => k() and
  fork_c() | fork_a() | seat_kant(k) => k()
  : fork_a() | fork_b() | fork_c()
]
site plato [
  plato_eats() => eats(plato) | plato_full() and
  plato_full() => thinks(plato) | fork_a() | fork_b()
  : seat_plato(plato_eats)
]
site hume [
  hume_eats() => eats(hume) | hume_full() and
  hume_full() => thinks(hume) | fork_b() | fork_c()
  : seat_hume(hume_eats)
]
site kant [
  kant_eats() => eats(kant) | kant_full() and
  kant_full() => thinks(kant) | fork_c() | fork_a()
  : seat_kant(kant_eats)
]
",
        )],
        out: r"eats(plato)
thinks(plato)
eats(hume)
thinks(hume)
eats(kant)
thinks(kant)
quiescent
",
        events: Some(9),
        freely: Freely::OneOf(&[
            r"eats(plato)
thinks(plato)
eats(hume)
thinks(hume)
eats(kant)
thinks(kant)
quiescent
",
            r"eats(plato)
thinks(plato)
eats(kant)
thinks(kant)
eats(hume)
thinks(hume)
quiescent
",
        ]),
        ..QUIET
    },
    // replies.join
    Case {
        words: &["alone"],
        text: &[(
            1,
            r"# A bank opens a fresh channel for each caller, and each caller asks on it with a fresh channel for the reply.
# Look at the printed names: a fresh name is its spelling, ' and a rank, so that two names of one spelling are told
# apart. What is asked of account'1 is answered by its own owner, never by that of account'2.
observe opened/2; observe owner/2;
site bank [
  open(who, k) =>
    def account(reply) => reply(who)
    in opened(who, account) | k(account)
  : 0
]
site anna [
  hers(account) =>
    def reply(who) => owner(account, who)
    in account(reply)
  : open(anna, hers)
]
site ben [
  his(account) =>
    def reply(who) => owner(account, who)
    in account(reply)
  : open(ben, his)
]
",
        )],
        out: r"opened(anna, account'1)
opened(ben, account'2)
owner(account'1, anna)
owner(account'2, ben)
quiescent
",
        events: Some(8),
        freely: Freely::Before(&[
            ("opened(anna, account'1)", "opened(ben, account'2)"),
            ("opened(ben, account'2)", "owner(account'1, anna)"),
            ("opened(ben, account'2)", "owner(account'2, ben)"),
        ]),
        ..QUIET
    },
    // ring.join
    Case {
        words: &["alone"],
        text: &[(
            1,
            r"# Three stations share one line. Only who holds the token may speak, and then hands it on to the next station.
# Look at the output: they speak in turn, though all words are there from the start. In the end the token waits at
# the first station, which has nothing left to say.
observe line/2;
site anna [
  token_anna() | say_anna(word) => line(anna, word) | token_ben() and
  hello() => 0 and
  bye() => 0
  : say_anna(hello) | say_anna(bye) | token_anna()
]
site ben [
  token_ben() | say_ben(word) => line(ben, word) | token_cleo()
  : say_ben(hello) | say_ben(bye)
]
site cleo [
  token_cleo() | say_cleo(word) => line(cleo, word) | token_anna()
  : say_cleo(hello) | say_cleo(bye)
]
",
        )],
        out: r"line(anna, hello)
line(ben, hello)
line(cleo, hello)
line(anna, bye)
line(ben, bye)
line(cleo, bye)
quiescent
",
        events: Some(6),
        ..QUIET
    },
];

pub(crate) fn philosophers_to_ring() -> &'static [Case] {
    PHILOSOPHERS_TO_RING
}

const BANK_TO_COUNTER_2: &[Case] = &[
    // bank.join
    Case {
        words: &["alone"],
        text: &[(
            1,
            r"version 2;
# A bank with two accounts, which pays out no more than is there. There is no subtraction and no `less than`, so `minus`
# counts from 0 up to the balance, and from the amount on it counts what is left.
# Look at `balance`: each account has one such message, and whoever works at the account has taken it. So two payments
# from one account are never worked on at once.
observe paid/3; observe refused/2; observe has/2;
site bank [
  open(n, k) =>
    def balance(b) | deposit(m, then) => add(b, m, balance) | then()
    and balance(b) | withdraw(m, then, refuse) =>
      def rest(c) => balance(c) | then()
      and too_much() => balance(b) | refuse()
      in minus(b, m, rest, too_much)
    and balance(b) | look(j) => balance(b) | j(b)
    in balance(n) | k(deposit, withdraw, look) and
  minus(b, m, k, too_much) =>
    def below(i) =>
      def reached() => above(i, 0)
      and not_yet() => same(i, b, too_much, up)
      and up() => add(i, 1, below)
      in same(i, m, reached, not_yet)
    and above(i, c) =>
      def all() => k(c)
      and more() => add(i, 1, next) | add(c, 1, one_more)
      and next(j) | one_more(d) => above(j, d)
      in same(i, b, all, more)
    in below(0)
  : 0
]
site anna [
  opened(in_anna, out_anna, see_anna) | opened_ben(in_ben, out_ben, see_ben) =>
    def pay(m, then) =>
      def taken() => in_ben(m, given)
      and given() => paid(anna, ben, m) | then()
      and not_taken() => refused(anna, m) | then()
      in out_anna(m, taken, not_taken)
    and once() => pay(3, twice)
    and twice() => see_anna(show_anna)
    and show_anna(n) => has(anna, n) | see_ben(show_ben)
    and show_ben(n) => has(ben, n)
    in pay(3, once)
  : open(5, opened) | open(2, opened_ben)
]
site ben [
  none
  : 0
]
",
        )],
        out: r"paid(anna, ben, 3)
refused(anna, 3)
has(anna, 2)
has(ben, 5)
quiescent
",
        events: Some(48),
        ..QUIET
    },
    // barrier_2.join
    Case {
        words: &["alone"],
        text: &[(
            1,
            r"version 2;
# The barrier of barrier.join in version 2: the runners are counted, so all may arrive on one channel, and there may be
# any number of them. Look at `more`: it calls all who came before and one runner more, and is kept until all are there.
observe ready/1; observe starts/1;
site barrier [
  waiting(n, all) | arrive(k) =>
    def more() => all() | k()
    and here(m) =>
      def full() => more() | waiting(0, nobody)
      and not_yet() => waiting(m, more)
      in same(m, 3, full, not_yet)
    in add(n, 1, here) and
  nobody() => 0
  : waiting(0, nobody)
]
site anna [
  anna_runs() => starts(anna)
  : ready(anna) | arrive(anna_runs)
]
site ben [
  tie_shoes() => ready(ben) | arrive(ben_runs) and
  ben_runs() => starts(ben)
  : tie_shoes()
]
site cleo [
  cleo_runs() => starts(cleo)
  : ready(cleo) | arrive(cleo_runs)
]
",
        )],
        out: r"ready(anna)
ready(cleo)
ready(ben)
starts(cleo)
starts(ben)
starts(anna)
quiescent
",
        events: Some(17),
        freely: Freely::Before(&[
            ("ready(anna)", "ready(cleo)"),
            ("ready(cleo)", "ready(ben)"),
            ("ready(ben)", "starts(anna)"),
            ("ready(ben)", "starts(ben)"),
            ("ready(ben)", "starts(cleo)"),
        ]),
        ..QUIET
    },
    // counter_2.join
    Case {
        words: &["alone"],
        text: &[(
            1,
            r"version 2;
# The counter of counter.join in version 2: the same commands, and the same lines are printed, but a number is a number.
# Look at `print`: there a number was asked what it is, and so was counted down; here a second one is counted up to it.
observe one/0; observe end/0;
site counter [
  count(n) | up(k) => add(n, 1, count) | k() and
  count(n) | read(k) => count(n) | k(n)
  : count(0)
]
site user [
  twice() => up(thrice) and
  thrice() => up(enough) and
  enough() => read(print) and
  print(n) =>
    def from(i) =>
      def more() => one() | add(i, 1, from)
      in same(i, n, stop, more)
    in from(0) and
  stop() => end()
  : up(twice)
]
",
        )],
        out: r"one()
one()
one()
end()
quiescent
",
        events: Some(16),
        ..QUIET
    },
];

pub(crate) fn bank_to_counter_2() -> &'static [Case] {
    BANK_TO_COUNTER_2
}

const ELECTION_TO_TICKETS: &[Case] = &[
    // election.join
    Case {
        words: &["alone"],
        text: &[(
            1,
            r"version 2;
# An election: three sites in a ring, each with a number, and the greatest one is to lead. Each sends its number round.
# A site hands a number on where it is greater than its own, and drops it where it is less; whose own number comes back
# leads. Look at `greater`: with `add` and `same` alone, the lesser of two numbers is the one that counting meets first.
observe leader/2;
site scales [
  greater(a, b, yes, no) =>
    def from(i) =>
      def not_a() => same(i, b, yes, neither)
      and neither() => add(i, 1, from)
      in same(i, a, no, not_a)
    in from(0)
  : 0
]
site anna [
  to_anna(n) =>
    def other() => greater(n, 3, on, drop)
    and on() => to_ben(n)
    and mine() => leader(anna, n)
    in same(n, 3, mine, other)
  : to_ben(3)
]
site ben [
  to_ben(n) =>
    def other() => greater(n, 7, on, drop)
    and on() => to_cleo(n)
    and mine() => leader(ben, n)
    in same(n, 7, mine, other)
  : to_cleo(7)
]
site cleo [
  to_cleo(n) =>
    def other() => greater(n, 5, on, drop)
    and on() => to_anna(n)
    and mine() => leader(cleo, n)
    in same(n, 5, mine, other) and
  drop() => 0
  : to_anna(5)
]
",
        )],
        out: r"leader(ben, 7)
quiescent
",
        events: Some(87),
        ..QUIET
    },
    // fibonacci.join
    Case {
        words: &["alone"],
        text: &[(
            1,
            r"version 2;
# Fibonacci's numbers by messages: each is the sum of the two before it. A step needs two sums, and a join pattern waits
# for both. `fib` goes n steps on from two numbers that are given.
# Look at the end: the 93rd number is found from the 90th and the 91st, and is the last one below 2^64. The sum that
# would be the 94th is no number, so its `add` waits for good, and nobody is told anything.
observe fibonacci/2;
site numbers [
  fib(n, a, b, k) =>
    def row(i, before, it) =>
      def done() => k(it)
      and on() => add(i, 1, place) | add(before, it, sum)
      and place(j) | sum(s) => row(j, it, s)
      in same(i, n, done, on)
    in row(0, a, b)
  : 0
]
site anna [
  tenth(v) => fibonacci(10, v) | fib(2, 2880067194370816120, 4660046610375530309, last) and
  last(v) => fibonacci(93, v) | fib(3, 2880067194370816120, 4660046610375530309, too_large) and
  too_large(v) => fibonacci(94, v)
  : fib(9, 0, 1, tenth)
]
",
        )],
        out: r"fibonacci(10, 55)
fibonacci(93, 12200160415121876738)
quiescent
",
        events: Some(50),
        ..QUIET
    },
    // tickets.join
    Case {
        words: &["alone"],
        text: &[(
            1,
            r"version 2;
# A counter service. Its number is the argument of one message `next`: `draw` takes it, and `add` puts the next one
# back. Both are one step, since a sum needs none of its own. So no two tickets have one number, whoever comes first.
# Look at the output: Cleo takes a step more to come, and gets the last ticket.
observe ticket/2;
site office [
  next(n) | draw(k) => add(n, 1, next) | k(n)
  : next(1)
]
site anna [
  anna_has(n) => ticket(anna, n)
  : draw(anna_has)
]
site ben [
  ben_has(n) => ticket(ben, n)
  : draw(ben_has)
]
site cleo [
  come() => draw(cleo_has) and
  cleo_has(n) => ticket(cleo, n)
  : come()
]
",
        )],
        out: r"ticket(anna, 1)
ticket(ben, 2)
ticket(cleo, 3)
quiescent
",
        events: Some(7),
        freely: Freely::AnyOrder,
        ..QUIET
    },
];

pub(crate) fn election_to_tickets() -> &'static [Case] {
    ELECTION_TO_TICKETS
}
