// The members that a process adds to the code's lists.
ghost use Rattle.std.specs.Prelude.{◌≡◌, [], ◌∷◌, ◌++◌, IfOk, OnOk, length};
ghost use Rattle.chem_model.specs.Process.{definitions, processes, Def, Par};
ghost use Rattle.env_store.specs.Layout.{place_in, places_order};
ghost use Rattle.guard_compile.specs.Written.{behind, inside, above};
ghost use Rattle.guard_compile.specs.Written.{no_definitions, no_piece};
ghost use Rattle.guard_compile.specs.inside.Appends.{Appends, AppendsDefined, IsBegun};
ghost use Rattle.guard_compile.specs.inside.Appends.{Writes, WritesBody, Defines, WritesPlace};
ghost use Rattle.guard_compile.specs.inside.Appends.{whole_block, whole_place, begun_place};
ghost use Rattle.guard_compile.specs.inside.Appends.{guard_with, WritesSite};
ghost use Rattle.guard_compile.specs.inside.Appends.{defs_wrote, def_wrote};

use crate::binders::Binders;
use crate::count::{poured, rules, sum};
use crate::layout::{Opened, channels, name_place, open, push_params, slot, slots};
use crate::mask::mask;
use crate::names::NameTable;
use chem_model::{Defn, DefnNode, Defs, Items, Memory, Nums, Pats, Proc, ProcNode, Procs, Ref};
use env_store::{
    Block, Blocks, Bodies, Guard, Guards, Instr, Instrs, Level, Levels, Mask, SiteCode,
};
use std::alloc::Global;
use std::mem;

// The next number of each list.
#[derive(Clone, Copy)]
pub(crate) struct At {
    pub(crate) level: u32,
    pub(crate) guard: u32,
    pub(crate) block: u32,
    pub(crate) body: u32,
}

// Members of the lists, and the next numbers behind them.
#[derive(Drop)]
pub(crate) struct Piece {
    pub(crate) next: At,
    pub(crate) levels: Levels,
    pub(crate) guards: Guards,
    pub(crate) blocks: Blocks,
    pub(crate) bodies: Bodies,
}

// What definitions add: the guards of their rules, the numbers of their places' levels, and all
// that is within.
#[derive(Drop)]
pub(crate) struct Defined {
    pub(crate) guards: Guards,
    pub(crate) places: Nums,
    pub(crate) piece: Piece,
}

// A block of which nothing is written yet: how many rules stand at its top, what it names, and
// what its definitions add.
#[derive(Drop)]
struct Begun {
    count: u32,
    opened: Opened,
    defined: Defined,
}

// A place of which nothing is written yet: the number of its level, what is known of that level,
// and what its definitions add.
#[derive(Drop)]
struct BegunPlace {
    number: u32,
    level: Level,
    inner: Defined,
}

// What writes: the names of the site level, and a layout. Whatever it writes, it is left as it was.
#[derive(Drop)]
struct Writer<'a> {
    alloc: Global,
    tops: &'a NameTable,
    layout: Binders,
}

// Where definitions stand: in this block, in the level with this number and these channels.
#[derive(Drop)]
struct Within<'a> {
    block: u32,
    level: u32,
    channels: &'a Binders,
}

impl At {
    // The numbers behind a level with so many guards.
    fn behind(self, guards: u32) -> Result<At, Memory>
        ensures { IfOk result (λ at. at ≡ behind self guards) }
    {
        let level = sum(self.level, 1)?;
        let guard = sum(self.guard, guards)?;
        Ok(At {
            level,
            guard,
            block: self.block,
            body: self.body,
        })
    }

    // The numbers behind a block.
    fn inside(self) -> Result<At, Memory>
        ensures { IfOk result (λ at. at ≡ inside self) }
    {
        let block = sum(self.block, 1)?;
        Ok(At {
            level: self.level,
            guard: self.guard,
            block,
            body: self.body,
        })
    }

    // The numbers behind a body.
    fn above(self) -> Result<At, Memory>
        ensures { IfOk result (λ at. at ≡ above self) }
    {
        let body = sum(self.body, 1)?;
        Ok(At {
            level: self.level,
            guard: self.guard,
            block: self.block,
            body,
        })
    }
}

impl Piece {
    // No members.
    pub(crate) fn start(alloc: Global, at: At) -> Piece
        ensures { result ≡ no_piece at }
    {
        Piece {
            next: at,
            levels: Items::new(alloc),
            guards: Items::new(alloc),
            blocks: Items::new(alloc),
            bodies: Items::new(alloc),
        }
    }
}

impl Defined {
    // No definitions.
    fn start(alloc: Global, at: At) -> Defined
        ensures { result ≡ no_definitions at }
    {
        Defined {
            guards: Items::new(alloc),
            places: Items::new(alloc),
            piece: Piece::start(alloc, at),
        }
    }
}

// Begins a block at these numbers.
fn begin(alloc: Global, at: At, defs: &Defs) -> Result<Begun, Memory>
    ensures { IfOk result (λ begun. IsBegun at (definitions defs.now) begun) }
{
    let count = rules(defs)?;
    let next = at.inside()?.behind(count)?;
    let opened = open(alloc, defs)?;
    Ok(Begun {
        count,
        opened,
        defined: Defined::start(alloc, next),
    })
}

// The levels of a block: its own, and then those of its places.
fn levels_of(alloc: Global, own: u32, places: &mut Nums) -> Result<Nums, Memory>
    ensures { IfOk result (λ levels. levels ≡ own ∷ places.old) }
{
    let mut levels = Items::new(alloc);
    levels.push(own)?;
    levels.append(places)?;
    Ok(levels)
}

// Appends a piece behind another.
fn put_piece(piece: &mut Piece, more: &mut Piece) -> Result<(), Memory>
    ensures { OnOk result (Appends piece.old piece.new more.old) }
{
    piece.levels.append(&mut more.levels)?;
    piece.guards.append(&mut more.guards)?;
    piece.blocks.append(&mut more.blocks)?;
    piece.bodies.append(&mut more.bodies)?;
    piece.next = more.next;
    Ok(())
}

// Appends a level with its guards, and then what is within it.
fn put_level(piece: &mut Piece, level: Level, defined: &mut Defined) -> Result<(), Memory>
    ensures next { OnOk result (piece.new.next ≡ defined.old.piece.next) }
    ensures levels { OnOk result (piece.new.levels ≡ piece.old.levels
        ++ level ∷ defined.old.piece.levels) }
    ensures guards { OnOk result (piece.new.guards ≡ piece.old.guards
        ++ (defined.old.guards ++ defined.old.piece.guards)) }
    ensures blocks { OnOk result (piece.new.blocks ≡ piece.old.blocks
        ++ defined.old.piece.blocks) }
    ensures bodies { OnOk result (piece.new.bodies ≡ piece.old.bodies
        ++ defined.old.piece.bodies) }
{
    piece.levels.push(level)?;
    piece.guards.append(&mut defined.guards)?;
    put_piece(piece, &mut defined.piece)
}

// Appends a block with its own level, and then what is within it.
fn put_block(
    alloc: Global,
    at: At,
    depth: u32,
    names: u32,
    begun: &mut Begun,
    piece: &mut Piece,
) -> Result<(), Memory>
    ensures { OnOk result (Appends piece.old piece.new
        (whole_block at depth begun.old.count names begun.old.opened.counts begun.old.defined)) }
{
    let levels = levels_of(alloc, at.level, &mut begun.defined.places)?;
    let own = Level {
        block: at.block,
        place: None,
        counts: mem::replace(&mut begun.opened.counts, Items::new(alloc)),
        depth,
        first: at.guard,
        guards: begun.count,
        body: None,
    };
    piece.blocks.push(Block { levels, names })?;
    put_level(piece, own, &mut begun.defined)
}

// Appends a place with its level, and then what is within it.
fn put_place(begun: BegunPlace, defined: &mut Defined) -> Result<(), Memory>
    ensures { OnOk result (AppendsDefined defined.old defined.new
        (whole_place begun.number begun.level begun.inner)) }
{
    let BegunPlace {
        number,
        level,
        mut inner,
    } = begun;
    defined.places.push(number)?;
    put_level(&mut defined.piece, level, &mut inner)
}

// Appends a body that is done, and answers its number.
fn put_body(piece: &mut Piece, instrs: Instrs) -> Result<u32, Memory>
    ensures number { IfOk result (λ number. number ≡ piece.old.next.body) }
    ensures next { OnOk result (piece.new.next ≡ above piece.old.next) }
    ensures bodies { OnOk result (piece.new.bodies ≡ piece.old.bodies ++ instrs ∷ []) }
    ensures levels { OnOk result (piece.new.levels ≡ piece.old.levels) }
    ensures guards { OnOk result (piece.new.guards ≡ piece.old.guards) }
    ensures blocks { OnOk result (piece.new.blocks ≡ piece.old.blocks) }
{
    let number = piece.next.body;
    let next = piece.next.above()?;
    piece.bodies.push(instrs)?;
    piece.next = next;
    Ok(number)
}

// The guard of a rule, whose body has this number.
fn rule_guard(
    alloc: Global,
    within: &Within<'_>,
    pats: &Pats,
    body: &Proc,
    number: u32,
) -> Result<Guard, Memory>
    ensures { IfOk result (λ guard. guard ≡ guard_with within.now.level within.now.channels.now
        pats.now body.now number) }
{
    let made = poured(body)?;
    let chans = channels(alloc, within.channels, pats)?;
    let words = mask(alloc, within.channels.len(), &chans)?;
    Ok(Guard {
        level: within.level,
        mask: Mask { words },
        chans,
        body: number,
        births: made.births,
        sends: made.sends,
    })
}

impl<'a> Writer<'a> {
    // Writes a process: its members are appended to the piece, and its instructions to the body.
    #[cycle(write)]
    fn write(
        &mut self,
        process: &Proc,
        piece: &mut Piece,
        instrs: &mut Instrs,
    ) -> Result<(), Memory>
        ensures { OnOk result (Writes self.old self.new piece.old piece.new instrs.old instrs.new
            process.now) }
    {
        match process.node() {
            ProcNode::Msg { on, args } => {
                let args = slots(self.alloc, self.tops, &self.layout, args)?;
                let on = slot(self.tops, &self.layout, *on);
                instrs.push(Instr::Send { on, args })
            }
            ProcNode::Par(members) => self.write_all(members, piece, instrs),
            ProcNode::Def { defs, body } => self.write_block(defs, body, piece, instrs),
            ProcNode::Go { target, cont } => {
                let target = slot(self.tops, &self.layout, *target);
                let cont = slot(self.tops, &self.layout, *cont);
                instrs.push(Instr::Go { target, cont })
            }
            ProcNode::Fail { target, cont } => {
                let target = slot(self.tops, &self.layout, *target);
                let cont = slot(self.tops, &self.layout, *cont);
                instrs.push(Instr::Fail { target, cont })
            }
            ProcNode::Halt => instrs.push(Instr::Halt),
        }
    }

    #[cycle(write)]
    fn write_all(
        &mut self,
        members: &Procs,
        piece: &mut Piece,
        instrs: &mut Instrs,
    ) -> Result<(), Memory>
        ensures { OnOk result (Writes self.old self.new piece.old piece.new instrs.old instrs.new
            (Par (processes members.now))) }
    {
        for member in members.as_slice() {
            self.write(member, piece, instrs)?;
        }
        Ok(())
    }

    // Writes `def`: its block with its own level come first, then what its definitions add, and
    // then what its process adds.
    #[cycle(write)]
    fn write_block(
        &mut self,
        defs: &Defs,
        body: &Proc,
        piece: &mut Piece,
        instrs: &mut Instrs,
    ) -> Result<(), Memory>
        ensures { OnOk result (Writes self.old self.new piece.old piece.new instrs.old instrs.new
            (Def (definitions defs.now) body.now)) }
    {
        let mut begun = begin(self.alloc, piece.next, defs)?;
        let written = self.write_begun(&mut begun, defs, body, piece, instrs);
        drop(begun);
        written
    }

    // Writes a block that is begun.
    #[cycle(write)]
    fn write_begun(
        &mut self,
        begun: &mut Begun,
        defs: &Defs,
        body: &Proc,
        piece: &mut Piece,
        instrs: &mut Instrs,
    ) -> Result<(), Memory>
        requires { IsBegun piece.old.next (definitions defs.now) begun.old }
        ensures { OnOk result (Writes self.old self.new piece.old piece.new instrs.old instrs.new
            (Def (definitions defs.now) body.now)) }
    {
        let at = piece.next;
        let outside = self.layout.len();
        self.layout.extend(begun.opened.order.as_slice())?;
        instrs.push(Instr::Enter { block: at.block })?;
        let depth = self.layout.len();
        let names = begun.opened.order.len();
        begun.opened.order.truncate(begun.opened.channels.len());
        let within = Within {
            block: at.block,
            level: at.level,
            channels: &begun.opened.channels,
        };
        self.write_defs(&within, &mut begun.opened.order, defs, &mut begun.defined)?;
        self.write(body, &mut begun.defined.piece, instrs)?;
        instrs.push(Instr::Leave { count: names })?;
        self.layout.truncate(outside);
        put_block(self.alloc, at, depth, names, begun, piece)
    }

    // Writes definitions of one level, where the block has named so much.
    #[cycle(write)]
    fn write_defs(
        &mut self,
        within: &Within<'_>,
        named: &mut Binders,
        defs: &Defs,
        defined: &mut Defined,
    ) -> Result<(), Memory>
        ensures { OnOk result (Defines self.old self.new named.old named.new
            (places_order named.old (definitions defs.now)) defined.old defined.new
            (defs_wrote self.old within.now defined.old named.old (definitions defs.now))) }
    {
        for definition in defs.as_slice() {
            self.write_def(within, named, definition, defined)?;
        }
        Ok(())
    }

    #[cycle(write)]
    fn write_def(
        &mut self,
        within: &Within<'_>,
        named: &mut Binders,
        definition: &Defn,
        defined: &mut Defined,
    ) -> Result<(), Memory>
        ensures { OnOk result (Defines self.old self.new named.old named.new
            (place_in named.old definition.now) defined.old defined.new
            (def_wrote self.old within.now defined.old named.old definition.now)) }
    {
        match definition.node() {
            DefnNode::Rule { pats, body } => {
                let outside = self.layout.len();
                push_params(&mut self.layout, pats)?;
                let number = self.write_body(body, &mut defined.piece)?;
                self.layout.truncate(outside);
                let guard = rule_guard(self.alloc, within, pats, body, number)?;
                defined.guards.push(guard)
            }
            DefnNode::Place { name, defs, body } => {
                let mut begun = self.begin_place(within.block, defs, defined)?;
                self.write_place(&mut begun, named, *name, defs, body)?;
                put_place(begun, defined)
            }
        }
    }

    // Writes a process that is a body of its own, and answers the number of that body.
    #[cycle(write)]
    fn write_body(&mut self, process: &Proc, piece: &mut Piece) -> Result<u32, Memory>
        ensures { IfOk result (WritesBody self.old self.new piece.old piece.new process.now) }
    {
        let mut instrs = Items::new(self.alloc);
        self.write(process, piece, &mut instrs)?;
        put_body(piece, instrs)
    }

    // Begins the next place of a block, where these definitions stand.
    fn begin_place(&self, block: u32, defs: &Defs, defined: &Defined) -> Result<BegunPlace, Memory>
        ensures { IfOk result (λ begun. begun ≡ begun_place block (length defined.now.places)
            defined.now.piece.next (length self.now.layout) (definitions defs.now)) }
    {
        let at = defined.piece.next;
        let place = defined.places.len() as u32;
        let count = rules(defs)?;
        let next = at.behind(count)?;
        Ok(BegunPlace {
            number: at.level,
            level: Level {
                block,
                place: Some(place),
                counts: Items::new(self.alloc),
                depth: self.layout.len(),
                first: at.guard,
                guards: count,
                body: None,
            },
            inner: Defined::start(self.alloc, next),
        })
    }

    // Writes what is within a place that is begun: what its definitions add, and then its process.
    // Its level is told how many arguments its channels take, and which body it has.
    #[cycle(write)]
    fn write_place(
        &mut self,
        begun: &mut BegunPlace,
        named: &mut Binders,
        name: Ref,
        defs: &Defs,
        body: &Proc,
    ) -> Result<(), Memory>
        ensures { OnOk result (WritesPlace self.old self.new named.old named.new begun.old begun.new
            name (definitions defs.now) body.now) }
    {
        let mut own = Binders::new(self.alloc);
        name_place(named, &mut own, &mut begun.level.counts, name, defs)?;
        let so_far = named.len();
        let within = Within {
            block: begun.level.block,
            level: begun.number,
            channels: &own,
        };
        self.write_defs(&within, named, defs, &mut begun.inner)?;
        drop(own);
        named.truncate(so_far);
        let done = self.write_body(body, &mut begun.inner.piece)?;
        begun.level.body = Some(done);
        Ok(())
    }

    // Writes a site whose block is begun, under no layout.
    fn write_begun_site(
        &mut self,
        begun: &mut Begun,
        defs: &Defs,
        process: &Proc,
        piece: &mut Piece,
    ) -> Result<SiteCode, Memory>
        requires begun { IsBegun piece.old.next (definitions defs.now) begun.old }
        requires layout { self.old.layout ≡ [] }
        ensures { IfOk result (WritesSite self.old.tops.now piece.old piece.new
            (definitions defs.now) process.now) }
    {
        let at = piece.next;
        let names = begun.opened.order.len();
        begun.opened.order.truncate(begun.opened.channels.len());
        let within = Within {
            block: at.block,
            level: at.level,
            channels: &begun.opened.channels,
        };
        self.write_defs(&within, &mut begun.opened.order, defs, &mut begun.defined)?;
        let body = self.write_body(process, &mut begun.defined.piece)?;
        put_block(self.alloc, at, 0, names, begun, piece)?;
        Ok(SiteCode {
            block: at.block,
            body,
        })
    }
}

// Writes a site: its block with its own level come first, then what its definitions add, and then
// its process.
pub(crate) fn write_site(
    alloc: Global,
    tops: &NameTable,
    defs: &Defs,
    process: &Proc,
    piece: &mut Piece,
) -> Result<SiteCode, Memory>
    ensures { IfOk result (WritesSite tops.now piece.old piece.new (definitions defs.now)
        process.now) }
{
    let mut begun = begin(alloc, piece.next, defs)?;
    let mut writer = Writer {
        alloc,
        tops,
        layout: Binders::new(alloc),
    };
    let code = writer.write_begun_site(&mut begun, defs, process, piece);
    drop(begun);
    drop(writer);
    code
}
