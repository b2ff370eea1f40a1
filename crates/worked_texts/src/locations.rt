// The programs of the folder `examples/` about locations, with what they print.

use crate::case::{Case, Freely, QUIET};

const APPLET_TO_HARVEST: &[Case] = &[
    // applet.join
    Case {
        words: &["alone"],
        text: &[(
            1,
            r"# A server makes an applet on request and ships it to the client. It is a memo: a location with rules and a state of
# its own, which moves to the client's site and only then hands out its channels.
# Look at the end: the server has died, and the memo still answers, since it lives at the client now.
observe wrote/1; observe died/1; observe shows/1;
site server [
  want(place, k) =>
    def memo [
      holds(x) | get(r) => holds(x) | r(x) and
      holds(x) | set(y, r) => holds(y) | r() and
      here() => k(get, set)
      : holds(blank) | go(place, here)
    ] in 0 and
  blank() => 0 and
  stop() => halt()
  : 0
]
site client [
  buy_milk() => 0 and
  use(get, set) =>
    def written() => wrote(buy_milk) | stop() | fail(server, later)
    and later() => died(server) | get(show)
    and show(x) => shows(x)
    in set(buy_milk, written)
  : want(client, use)
]
",
        )],
        out: r"wrote(buy_milk)
died(server)
shows(buy_milk)
quiescent
",
        events: Some(12),
        ..QUIET
    },
    // failover.join
    Case {
        words: &["alone"],
        text: &[(
            1,
            r"# A boss sends a worker to a site and watches it. Where the worker is found dead, the boss hires another one for a
# spare site. The first worker dies since its host halts while it is there; `fail` sees that from outside.
# Look at the names: both workers come from one `def`, and are two fresh locations, worker'1 and worker'2.
observe sent/2; observe lost/1; observe done/2;
site boss [
  hire(host, job) =>
    def worker [
      here() => job(finished) and
      finished() => done(worker, host)
      : go(host, here)
    ]
    and gone() => lost(worker) | next()
    in sent(worker, host) | fail(worker, gone) and
  next() | spare(host, job) => hire(host, job)
  : hire(alpha, job_alpha) | spare(beta, job_beta)
]
site alpha [
  job_alpha(k) => halt()
  : 0
]
site beta [
  job_beta(k) => k()
  : 0
]
",
        )],
        out: r"sent(worker'1, alpha)
lost(worker'1)
sent(worker'2, beta)
done(worker'2, beta)
quiescent
",
        events: Some(13),
        ..QUIET
    },
    // harvest.join
    Case {
        words: &["alone"],
        text: &[(
            1,
            r"# Three farms work side by side, each step by step by itself, and report to one market.
# Look at the end: `closed` needs the thanks of all three farms, so it comes last by each command.
# `run` may print the three `sold` in any order: no farm waits for another, and the market takes a report when it comes.
observe sold/1; observe closed/1;
site market [
  report(farm, thanks) => sold(farm) | thanks() and
  to_north() | to_south() | to_east() => closed(market)
  : 0
]
site north [
  plough() => reap() and
  reap() => report(north, to_north)
  : plough()
]
site south [
  plant() => pick() and
  pick() => report(south, to_south)
  : plant()
]
site east [
  shear() => report(east, to_east)
  : shear()
]
",
        )],
        out: r"sold(east)
sold(north)
sold(south)
closed(market)
quiescent
",
        events: Some(9),
        freely: Freely::Before(&[
            ("sold(north)", "closed(market)"),
            ("sold(south)", "closed(market)"),
            ("sold(east)", "closed(market)"),
        ]),
        ..QUIET
    },
];

pub(crate) fn applet_to_harvest() -> &'static [Case] {
    APPLET_TO_HARVEST
}

const POOL_TO_SAILOR: &[Case] = &[
    // pool.join
    Case {
        words: &["alone"],
        text: &[(
            1,
            r"# A pool of workers takes jobs from a queue. A job and a worker who is free are two messages of one join pattern.
# Look at who does what. `alone` takes the least message, which is Anna's each time, so Ben never gets a job. By
# `rounds` and `run` the worker is taken whose message came first: each gets a job, and the third one is for whoever
# is free again first. So `run` may give it to either, and print in any order what the two do side by side.
observe did/2;
site queue [
  job(task) | free(worker) => worker(task) and
  mow() => 0 and
  rake() => 0 and
  plant() => 0
  : job(mow) | job(rake) | job(plant)
]
site anna [
  anna_works(task) => did(anna, task) | free(anna_works)
  : free(anna_works)
]
site ben [
  ben_works(task) => did(ben, task) | free(ben_works)
  : free(ben_works)
]
",
        )],
        out: r"did(anna, mow)
did(anna, rake)
did(anna, plant)
quiescent
",
        events: Some(6),
        freely: Freely::OneOf(&[
            r"did(anna, mow)
did(anna, plant)
did(ben, rake)
quiescent
",
            r"did(anna, mow)
did(ben, rake)
did(anna, plant)
quiescent
",
            r"did(anna, mow)
did(ben, rake)
did(ben, plant)
quiescent
",
            r"did(ben, rake)
did(anna, mow)
did(anna, plant)
quiescent
",
            r"did(ben, rake)
did(anna, mow)
did(ben, plant)
quiescent
",
            r"did(ben, rake)
did(ben, plant)
did(anna, mow)
quiescent
",
        ]),
        ..QUIET
    },
    // postman.join
    Case {
        words: &["alone"],
        text: &[(
            1,
            r"# What goes along when a location moves: its rules, the messages that wait in it, and its requests. Two letters reach
# the postman at the office, but his rule wants `at` too, which he sends only when he has arrived in the village.
# Look at `closed`: his request `fail(office, ..)` moved with him, and sees from the village that the office died.
observe handed/2; observe closed/1;
site office [
  postman [
    letter(v) | at(town) => handed(v, town) | at(town) and
    arrived() => at(village) | close() and
    gone() => closed(office)
    : go(village, arrived) | fail(office, gone)
  ] and
  card() => 0 and
  bill() => 0 and
  close() => halt()
  : letter(card) | letter(bill)
]
site village [
  none
  : 0
]
",
        )],
        out: r"handed(card, village)
handed(bill, village)
closed(office)
quiescent
",
        events: Some(8),
        ..QUIET
    },
    // sailor.join
    Case {
        words: &["alone"],
        text: &[(
            1,
            r"# A sailor goes on board with his luggage: his rules, a letter that waits in him, and his request `fail(port, ..)`.
# Meanwhile Anna and Ben write to him. Look at `read`: each letter finds him. One that comes to the port after he left
# is sent on to the ship, also by a port that is dead.
# `run` always prints read(map) first, since that letter was there before. The other lines may come in any order: each
# letter comes when it comes, before or after the port has died.
observe read/1; observe closed/1;
site port [
  sailor [
    letter(x) | on_board() => read(x) | on_board() and
    sails() => on_board() | close() and
    no_way_back() => closed(port)
    : letter(map) | go(ship, sails) | fail(port, no_way_back)
  ] and
  map() => 0 and
  close() => halt()
  : 0
]
site ship [
  none
  : 0
]
site anna [
  write_song() => letter(song) and
  song() => 0
  : write_song()
]
site ben [
  write_joke() => letter(joke) and
  joke() => 0
  : write_joke()
]
",
        )],
        out: r"read(map)
read(song)
read(joke)
closed(port)
quiescent
",
        events: Some(11),
        freely: Freely::Before(&[
            ("read(map)", "read(song)"),
            ("read(map)", "read(joke)"),
            ("read(map)", "closed(port)"),
        ]),
        ..QUIET
    },
];

pub(crate) fn pool_to_sailor() -> &'static [Case] {
    POOL_TO_SAILOR
}

const TOUR_TO_WRECK: &[Case] = &[
    // tour.join
    Case {
        words: &["alone"],
        text: &[(
            1,
            r"# An agent tours three sites and comes home. It doesn't know its way: in each town it asks for the next town and for
# the road on from there. Look at `travel`: `here` is made in the agent and moves with it, so the message that a move
# ends with finds it where the agent has arrived.
observe seen/2;
site home [
  agent [
    travel(town, road) =>
      def here() => seen(agent, town) | road(travel)
      in go(town, here)
    : travel(oslo, from_oslo)
  ] and
  from_home(next) => 0
  : 0
]
site oslo [
  from_oslo(next) => next(paris, from_paris)
  : 0
]
site paris [
  from_paris(next) => next(rome, from_rome)
  : 0
]
site rome [
  from_rome(next) => next(home, from_home)
  : 0
]
",
        )],
        out: r"seen(agent, oslo)
seen(agent, paris)
seen(agent, rome)
seen(agent, home)
quiescent
",
        events: Some(16),
        ..QUIET
    },
    // wreck.join
    Case {
        words: &["alone"],
        text: &[(
            1,
            r"# What a halt stops. The ship halts once the rat is ashore. Then the ship is dead, and so is the crew, whom it hosts;
# the rat moved away before, and lives. Look at what doesn't come: `call` stays with the dead crew unanswered, and
# `fail(rat, ..)` waits for good.
observe alive/1; observe dead/1;
site ship [
  rat [
    ashore() => alive(rat) | sink()
    : go(shore, ashore)
  ] and
  crew [
    call() => alive(crew)
    : 0
  ] and
  sink() => halt()
  : 0
]
site shore [
  ship_dead() => dead(ship) | call() and
  crew_dead() => dead(crew) and
  rat_dead() => dead(rat)
  : fail(ship, ship_dead) | fail(crew, crew_dead) | fail(rat, rat_dead)
]
",
        )],
        out: r"alive(rat)
dead(ship)
dead(crew)
quiescent
",
        events: Some(8),
        ..QUIET
    },
];

pub(crate) fn tour_to_wreck() -> &'static [Case] {
    TOUR_TO_WRECK
}

const HOPS: &[Case] = &[
    // hops.join
    Case {
        words: &["alone"],
        text: &[(
            1,
            r"version 2;
# An agent counts its hops from site to site: a `go` sends nothing, so the count goes along as the argument of `hop`.
# Look at the end: Paris sends it on to Atlantis, which has sunk before the agent set out. In version 2 that is a move
# too: the agent is dead there, it never says that it has arrived, and home sees that it is lost.
observe seen/2; observe lost/1;
site home [
  agent [
    hop(n, town, road) =>
      def here() => add(n, 1, counted)
      and counted(m) => seen(town, m) | road(m, hop)
      in go(town, here) and
    sunk() => hop(0, oslo, from_oslo)
    : fail(atlantis, sunk)
  ] and
  gone() => lost(agent)
  : fail(agent, gone)
]
site oslo [
  from_oslo(n, next) => next(n, paris, from_paris)
  : 0
]
site paris [
  from_paris(n, next) =>
    def on() => next(n, oslo, from_oslo)
    and last() => next(n, atlantis, from_atlantis)
    in same(n, 4, last, on)
  : 0
]
site atlantis [
  from_atlantis(n, next) => next(n, home, from_oslo)
  : halt()
]
",
        )],
        out: r"seen(oslo, 1)
seen(paris, 2)
seen(oslo, 3)
seen(paris, 4)
lost(agent)
quiescent
",
        events: Some(29),
        ..QUIET
    },
];

pub(crate) fn hops() -> &'static [Case] {
    HOPS
}
