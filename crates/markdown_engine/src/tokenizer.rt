//! The tokenizer: what a state function is given.
//!
//! Each operation that may grow a list answers the error where the growth is refused; then `failed` is true.
ghost use Rattle.std.specs.Prelude.{◌≡◌, ◌++◌, ◌∷◌, [], OnOk, OnErr, IsTrue, MatchOption, true, false, Some, None};
ghost use Rattle.markdown_engine.specs.Operations.{applied, Enter, Exit, EnterLink, EnterConnected, Consume, attempted, registered, registered_before, is_registered, refused, current_of, previous_of, IsOpen, HasCode, enter_event, LinkedBefore};
ghost use Rattle.markdown_content.specs.Content.{IsContent};
ghost use Rattle.markdown_content.specs.Place.{point_of};
ghost use Rattle.markdown_engine_events.specs.EventChains.{IsFresh};
ghost use Rattle.markdown_engine.specs.RunStart.{begun, begun_at};
ghost use Rattle.markdown_engine.specs.RestingFields.{at_rest};

use markdown_content::bytes::{ByteSet, NO_BYTES};
use markdown_content::cursor::Cursor;
pub use markdown_content::label_kind::LabelKind;
use markdown_content::parser::{ParseState, Piece};
use markdown_engine_events::events::Events;
use markdown_engine_events::util::edit_map::EditMap;
use markdown_event::event::{Content, Event, Kind, Link, Name, Point};
use markdown_event::place_index::PlaceIndex;
use markdown_event::resolve::ResolveName;
use markdown_event::seq::{Seq, Stack};
use markdown_event::state::State;
use markdown_notes::name_index::Names;
use markdown_notes::run_index::RunIndex;
use markdown_notes::sequence_index::SequenceIndex;
use markdown_notes::title_index::TitleIndex;
use std::alloc::{AllocError, Global};
use std::marker::Model;
use std::mem;

/// The start of a label. Events are named by their numbers in the list.
#[derive(Clone, Copy)]
pub struct LabelStart {
    /// What it may begin.
    pub kind: LabelKind,
    /// The first Enter and the last Exit of the start.
    pub start: (usize, usize),
    /// Whether a link after it bars it.
    pub inactive: bool,
}

/// A label: its start and its end. Events are named by their numbers in the list.
#[derive(Clone, Copy)]
pub struct Label {
    /// What it is.
    pub kind: LabelKind,
    /// The first Enter and the last Exit of the start.
    pub start: (usize, usize),
    /// The first Enter and the last Exit of the end.
    pub end: (usize, usize),
}

/// The scratch fields of the states: what one state leaves for another. Each is at rest between two constructs, but for the lists of
/// labels, `markers`, `probes`, `runs`, `sequences`, `titles`, `no_domains`, `names` and
/// `document_at_first_paragraph_of_list_item`.
///
/// Some of them mean one thing in one construct, and another in the next:
///
/// | Field | In | It is |
/// |---|---|---|
/// | `marker` | spans, runs of markers | their marker |
/// | | references | their kind: `&`, `#` or `x` |
/// | | titles, quoted values of HTML | the byte that is to end them |
/// | | literals | in a domain `_`, where its last part has one; in a path what is known of trails |
/// | `marker_b` | literals | `_`, where the part of the domain before the last has one |
/// | `size` | spans | the markers of the opening run |
/// | | references | the codes of the value so far |
/// | | autolinks | the codes of the scheme, or of a label of the address, so far |
/// | | HTML | the codes of `CDATA[` so far |
/// | | literals | the codes of `www.` or of the protocol, and the slashes, so far; in a path the `(` so far |
/// | | destinations | the parentheses that are open |
/// | | labels of references | the codes so far that count to the limit |
/// | `size_b` | spans | the markers so far of a run that may close |
/// | | literals | in a path the `)` so far |
/// | | destinations | how many parentheses may be open |
/// | `end` | ends of labels | the number of events before the `]` |
/// | `seen` | literals | whether the domain holds a character that is more than punctuation |
/// | | labels of references | whether a code is not blank |
/// | | ends of labels | whether a full reference was read whose label is not defined |
/// | `connect` | titles, labels of references | whether their next data goes on with a chain |
/// | `token_1` and on | spans | the names of the whole, its sequences and its data |
/// | | destinations | of the whole, the one in brackets, its markers, the one without, and the text |
/// | | titles, labels of references | of the whole, its markers and the text |
#[derive(Drop)]
pub struct TokenizeState<'a> {
    /// A byte; 0 at rest.
    pub marker: u8,
    /// A second byte; 0 at rest.
    pub marker_b: u8,
    /// How many codes, bytes or markers were passed; 0 at rest.
    pub size: usize,
    /// A second number; 0 at rest.
    pub size_b: usize,
    /// The number of an event or a byte where something starts; 0 at rest. No construct here asks for it.
    pub start: usize,
    /// The number of an event where something ends; 0 at rest.
    pub end: usize,
    /// Whether something was seen; false at rest.
    pub seen: bool,
    /// Whether the next linked event goes on with a chain; false at rest.
    pub connect: bool,
    /// The bytes at which data stops.
    pub markers: ByteSet,
    /// A name for a partial construct; `Data` at rest, as the four below.
    pub token_1: Name,
    /// The second name.
    pub token_2: Name,
    /// The third name.
    pub token_3: Name,
    /// The fourth name.
    pub token_4: Name,
    /// The fifth name.
    pub token_5: Name,
    /// Whether whitespace goes on with a chain; false at rest.
    pub space_or_tab_connect: bool,
    /// How linked whitespace is to be read; none at rest.
    pub space_or_tab_content: Option<Content>,
    /// The fewest codes of whitespace; 0 at rest.
    pub space_or_tab_min: usize,
    /// The most codes of whitespace; 0 at rest.
    pub space_or_tab_max: usize,
    /// The codes of whitespace so far; 0 at rest.
    pub space_or_tab_size: usize,
    /// The name of whitespace; `SpaceOrTab` at rest.
    pub space_or_tab_token: Name,
    /// How linked whitespace across a line ending is to be read; none at rest.
    pub space_or_tab_eol_content: Option<Content>,
    /// Whether that whitespace goes on with a chain; false at rest.
    pub space_or_tab_eol_connect: bool,
    /// Whether there was whitespace before a line ending; false at rest.
    pub space_or_tab_eol_ok: bool,
    /// The label starts that no end has used, the last one on top.
    pub label_starts: Stack<LabelStart>,
    /// The label starts whose end failed.
    pub label_starts_loose: Seq<LabelStart>,
    /// The labels.
    pub labels: Seq<Label>,
    /// The number of opener probes of attention.
    pub probes: u128,
    /// Where the last runs of some bytes begin in the content; nothing is known at rest.
    pub runs: RunIndex,
    /// Where the last of some sequences begins in the content; nothing is known at rest.
    pub sequences: SequenceIndex,
    /// Where titles in parentheses may end in the content, and resources behind them; none at rest.
    pub titles: Option<TitleIndex>,
    /// The places behind a `_` in the content at which no literal from `www.` on begins, since no domain does; none at rest.
    pub no_domains: Option<PlaceIndex>,
    /// The names of what is defined, each found by a search; none at rest.
    pub names: Option<Names<'a>>,
    /// Whether the content is the first paragraph of a list item.
    pub document_at_first_paragraph_of_list_item: bool,
}

impl<'a> TokenizeState<'a> {
    /// All at rest: no labels, no markers, no probes, no known runs, sequences, titles and domains, no names.
    pub fn new(alloc: Global) -> TokenizeState<'a>
        ensures { result ≡ at_rest }
    {
        TokenizeState {
            marker: 0,
            marker_b: 0,
            size: 0,
            size_b: 0,
            start: 0,
            end: 0,
            seen: false,
            connect: false,
            markers: ByteSet::new(&NO_BYTES),
            token_1: Name::Data,
            token_2: Name::Data,
            token_3: Name::Data,
            token_4: Name::Data,
            token_5: Name::Data,
            space_or_tab_connect: false,
            space_or_tab_content: None,
            space_or_tab_min: 0,
            space_or_tab_max: 0,
            space_or_tab_size: 0,
            space_or_tab_token: Name::SpaceOrTab,
            space_or_tab_eol_content: None,
            space_or_tab_eol_connect: false,
            space_or_tab_eol_ok: false,
            label_starts: Stack::new(alloc),
            label_starts_loose: Seq::new(alloc),
            labels: Seq::new(alloc),
            probes: 0,
            runs: RunIndex::new(alloc),
            sequences: SequenceIndex::new(),
            titles: None,
            no_domains: None,
            names: None,
            document_at_first_paragraph_of_list_item: false,
        }
    }
}

/// What the next Ok and Nok go on with, and the lengths and the place that a Nok restores.
#[derive(Drop)]
pub struct Attempt<'a> {
    /// How the run goes on after an Ok.
    pub ok: State,
    /// How it goes on after a Nok.
    pub nok: State,
    /// Whether an Ok restores too.
    pub restores: bool,
    /// How many events there were.
    pub events_len: usize,
    /// How many edits there were.
    pub map_len: usize,
    /// How many events stood open.
    pub stack_len: usize,
    /// Where the tokenizer stood.
    pub cursor: Cursor<'a>,
}

/// A run over a content: where it stands, what it has found, and what is still to settle.
#[derive(Drop)]
pub struct Tokenizer<'a> {
    /// Where memory comes from.
    pub alloc: Global,
    /// The document and what is asked of the run.
    pub parse_state: &'a ParseState<'a>,
    /// The events so far.
    pub events: Events,
    /// Edits of the events that are put off.
    pub map: EditMap,
    /// The names of the open events, the innermost on top.
    pub stack: Stack<Name>,
    /// The place in the content.
    pub cursor: Cursor<'a>,
    /// The scratch fields.
    pub tokenize_state: TokenizeState<'a>,
    /// The passes that are to follow, in order.
    pub resolvers: Seq<ResolveName>,
    /// The attempts that wait, the innermost on top.
    pub attempts: Stack<Attempt<'a>>,
    /// Whether a growth was refused.
    pub failed: bool,
}

// Whether the pass is registered.
fn has_resolver(resolvers: &Seq<ResolveName>, name: ResolveName) -> bool
    ensures { result ≡ is_registered name resolvers.now }
{
    resolvers
        .as_slice()
        .iter()
        .any(|registered| *registered as u8 == name as u8)
}

impl<'a> Tokenizer<'a> {
    /// A run at the start of a content: no events, all scratch fields at rest. Takes no memory.
    pub fn new(alloc: Global, parse_state: &'a ParseState<'a>, pieces: &'a [Piece]) -> Tokenizer<'a>
        requires { IsContent parse_state.now.bytes.now pieces.now }
        ensures { result ≡ begun alloc parse_state.entry pieces.entry.now }
    {
        Tokenizer::starting_at(alloc, parse_state, Cursor::new(parse_state.bytes, pieces))
    }

    /// A run at the start of a content, by a cursor that stands there: no events, all scratch fields at rest. Takes no memory.
    pub fn starting_at(
        alloc: Global,
        parse_state: &'a ParseState<'a>,
        cursor: Cursor<'a>,
    ) -> Tokenizer<'a>
        ensures { result ≡ begun_at alloc parse_state.entry cursor.entry }
    {
        Tokenizer {
            alloc,
            parse_state,
            events: Events::new(alloc),
            map: EditMap::new(alloc),
            stack: Stack::new(alloc),
            cursor,
            tokenize_state: TokenizeState::new(alloc),
            resolvers: Seq::new(alloc),
            attempts: Stack::new(alloc),
            failed: false,
        }
    }

    /// The code at the place, none at the content's end.
    pub fn current(&self) -> Option<u8>
        ensures { result ≡ current_of self.now }
    {
        self.cursor.current()
    }

    /// The code before the place in the content, none at its start.
    pub fn previous(&self) -> Option<u8>
        ensures { result ≡ previous_of self.now }
    {
        self.cursor.previous()
    }

    /// The place.
    pub fn point(&self) -> Point
        ensures { result ≡ point_of self.now.cursor }
    {
        self.cursor.point()
    }

    /// Whether a growth was refused.
    pub fn failed(&self) -> bool
        ensures { result ≡ self.now.failed }
    {
        self.failed
    }

    /// Keeps in mind that a growth was refused.
    pub fn fail(&mut self)
        ensures { self.new ≡ refused self.old }
    {
        self.failed = true;
    }

    /// Hands on what a growth answered; where it was refused, keeps that in mind.
    #[inline(always)]
    pub fn noted<T>(&mut self, found: Result<T, AllocError>) -> Result<T, AllocError>
        ensures same { result ≡ found }
        ensures ok { OnOk result (self.new ≡ self.old) }
        ensures err { OnErr result (self.new ≡ refused self.old) }
    {
        if found.is_err() {
            self.fail();
        }
        found
    }

    // An Enter of this name at the place.
    fn enter_here(&self, name: Name, link: Option<Link>) -> Event
        ensures { result ≡ enter_event name link self.now }
    {
        Event {
            kind: Kind::Enter,
            name,
            point: self.point(),
            link,
        }
    }

    // Appends an event; a refused growth is kept in mind.
    #[inline(always)]
    fn append(&mut self, event: Event) -> Result<(), AllocError>
        requires { IsFresh event }
        ensures ok { OnOk result (self.new ≡ record self.old { events = self.old.events ++ event ∷ [] }) }
        ensures err { OnErr result (IsTrue self.new.failed) }
    {
        let appended = self.events.push(event);
        self.noted(appended)
    }

    // Opens an event of this name; a refused growth is kept in mind.
    fn open(&mut self, name: Name) -> Result<(), AllocError>
        ensures ok { OnOk result (self.new ≡ record self.old { stack = name ∷ self.old.stack }) }
        ensures err { OnErr result (IsTrue self.new.failed) }
    {
        let opened = self.stack.push(name);
        self.noted(opened)
    }

    /// Appends an Enter at the place.
    #[tactic(auto, unfolding(crate::specs::Operations::applied))]
    pub fn enter(&mut self, name: Name) -> Result<(), AllocError>
        ensures ok { OnOk result (self.new ≡ applied (Enter name) self.old) }
        ensures err { OnErr result (IsTrue self.new.failed) }
    {
        let event = self.enter_here(name, None);
        self.append(event)?;
        self.open(name)
    }

    /// Appends an Enter of linked content at the place, the first of a chain. Of the link only the content counts: it names no event before or after.
    #[tactic(auto, unfolding(crate::specs::Operations::applied))]
    pub fn enter_link(&mut self, name: Name, link: Link) -> Result<(), AllocError>
        ensures ok { OnOk result (self.new ≡ applied (EnterLink name link.content) self.old) }
        ensures err { OnErr result (IsTrue self.new.failed) }
    {
        let first = Link {
            previous: None,
            next: None,
            content: link.content,
        };
        let event = self.enter_here(name, Some(first));
        self.append(event)?;
        self.open(name)
    }

    /// Appends an Enter of linked content at the place, linked to the linked event just before.
    #[tactic(auto, using(crate::proofs::LinkLemmas::connect_rules), unfolding(crate::specs::Operations::applied))]
    pub fn enter_connected(&mut self, name: Name, content: Content) -> Result<(), AllocError>
        requires { LinkedBefore self.old }
        ensures ok { OnOk result (self.new ≡ applied (EnterConnected name content) self.old) }
        ensures err { OnErr result (IsTrue self.new.failed) }
    {
        let back = Link {
            previous: Some(self.events.as_slice().len() - 2),
            next: None,
            content,
        };
        let event = self.enter_here(name, Some(back));
        let appended = self.events.push_linked(event);
        self.noted(appended)?;
        self.open(name)
    }

    /// Appends an Exit of the innermost open event at the place, or at the start of the line after a line ending.
    #[tactic(auto, unfolding(crate::specs::Operations::applied))]
    pub fn exit(&mut self, name: Name) -> Result<(), AllocError>
        requires { IsOpen name self.old }
        ensures ok { OnOk result (self.new ≡ applied (Exit name) self.old) }
        ensures err { OnErr result (IsTrue self.new.failed) }
    {
        let _ = self.stack.pop();
        let event = Event {
            kind: Kind::Exit,
            name,
            point: self.cursor.exit_point(),
            link: None,
        };
        self.append(event)
    }

    /// Moves past the code at the place, and past bytes that are left out if it was a line ending.
    #[tactic(auto, unfolding(crate::specs::Operations::applied))]
    pub fn consume(&mut self)
        requires { HasCode self.old }
        ensures { self.new ≡ applied Consume self.old }
    {
        self.cursor.consume();
    }

    /// Enters, moves past the code at the place, and exits: two events around one code.
    ///
    /// The error comes where a growth is refused; then `failed` is true.
    #[tactic(auto, using(crate::proofs::OperationFields::law_rules))]
    pub fn take(&mut self, name: Name) -> Result<(), AllocError>
        requires { HasCode self.old }
        ensures ok { OnOk result (self.new ≡ applied (Exit name) (applied Consume (applied (Enter name) self.old))) }
        ensures err { OnErr result (IsTrue self.new.failed) }
    {
        self.enter(name)?;
        self.consume();
        self.exit(name)
    }

    // Opens an attempt; a refused growth is kept in mind.
    #[tactic(auto, unfolding(crate::specs::Operations::attempted, crate::specs::Operations::frame_of))]
    fn try_with(&mut self, restores: bool, ok: State, nok: State) -> Result<(), AllocError>
        ensures ok { OnOk result (self.new ≡ attempted restores ok nok self.old) }
        ensures err { OnErr result (IsTrue self.new.failed) }
    {
        let attempt = Attempt {
            ok,
            nok,
            restores,
            events_len: self.events.len(),
            map_len: self.map.len(),
            stack_len: self.stack.len(),
            cursor: self.cursor.save(),
        };
        let opened = self.attempts.push(attempt);
        self.noted(opened)
    }

    /// Goes on with `ok` after the next Ok, keeping all; after the next Nok restores, and goes on with `nok`.
    ///
    /// To restore is to take off the events, the edits and the open events beyond as many as there are now, and to go back to this place.
    /// Those that stay are as the attempt left them: a link that it wrote between two of these events stays, as do scratch fields and
    /// registered passes.
    pub fn attempt(&mut self, ok: State, nok: State) -> Result<(), AllocError>
        ensures ok { OnOk result (self.new ≡ attempted false ok nok self.old) }
        ensures err { OnErr result (IsTrue self.new.failed) }
    {
        self.try_with(false, ok, nok)
    }

    /// As `attempt`, and the next Ok restores too.
    pub fn check(&mut self, ok: State, nok: State) -> Result<(), AllocError>
        ensures ok { OnOk result (self.new ≡ attempted true ok nok self.old) }
        ensures err { OnErr result (IsTrue self.new.failed) }
    {
        self.try_with(true, ok, nok)
    }

    /// Adds the pass last, unless it is there.
    #[tactic(auto, unfolding(crate::specs::Operations::registered))]
    pub fn register_resolver(&mut self, name: ResolveName) -> Result<(), AllocError>
        ensures ok { OnOk result (self.new ≡ registered name self.old) }
        ensures err { OnErr result (IsTrue self.new.failed) }
    {
        if has_resolver(&self.resolvers, name) {
            return Ok(());
        }
        let added = self.resolvers.push(name);
        self.noted(added)
    }

    /// Adds the pass first, unless it is there.
    #[tactic(auto, unfolding(crate::specs::Operations::registered_before))]
    pub fn register_resolver_before(&mut self, name: ResolveName) -> Result<(), AllocError>
        ensures ok { OnOk result (self.new ≡ registered_before name self.old) }
        ensures err { OnErr result (IsTrue self.new.failed) }
    {
        if has_resolver(&self.resolvers, name) {
            return Ok(());
        }
        let added = self.resolvers.push_first(name);
        self.noted(added)
    }
}
