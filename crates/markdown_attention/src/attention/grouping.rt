//! The pass of attention, which makes emphasis, strong emphasis and strikethrough of the runs of markers that pair (CommonMark 6.2, GFM 6.5).
//!
//!     emphasis ::= '*' text '*' | '_' text '_'
//!     strong ::= '**' text '**' | '__' text '__'
//!     strikethrough ::= '~' text '~' | '~~' text '~~'    one tilde by `gfm_strikethrough_single_tilde`
//!
//! Which runs pair, and with how many markers, no grammar says, but the pair list of each container: the whole content, or the text of a label.
//!
//! Events, in place of `AttentionSequence`; strong emphasis has `Strong` in all names, strikethrough `GfmStrikethrough`:
//!
//!     Emphasis
//!       EmphasisSequence    the opening markers
//!       EmphasisText        what stands between
//!       EmphasisSequence    the closing markers
//!     Data                  markers that no pair takes
//!
//! `pairing` finds the pairs; `sizes` keeps what pairs take of each run as their opener, `brackets` writes the events, and `edits` collects and applies the
//! edits.
//!
//! Example: `*a **b***` is emphasis with strong emphasis in it.
//!
//! Definition: `paired` in `markdown_model/specs/BracketGroups.antt`, with `pair_list` in `Pairs.antt` and `run_of` in `Runs.antt`.
#![tactic(auto)]

ghost use Rattle.std.specs.Prelude.{◌≡◌, IfOk, OnOk, OnErr, IsTrue, None};
ghost use Rattle.markdown_attention.specs.RunsOfEvents.{runs_of_events};
ghost use Rattle.markdown_attention.specs.OpenRuns.{HaveMarkers};
ghost use Rattle.markdown_attention.specs.RunsOfTree.{IsOf, HasRuns};
ghost use Rattle.markdown_attention.specs.PairScan.{AreUntaken};
ghost use Rattle.markdown_engine.specs.PastTree.{appended_from};
ghost use Rattle.markdown_content.specs.Tree.{Forest};
ghost use Rattle.markdown_model.specs.InlineTree.{paired_whole};
ghost use Rattle.markdown_model.specs.Pairs.{pair_list};
ghost use Rattle.markdown_model.specs.Setting.{Setting};
ghost use Rattle.markdown_attention.specs.AttentionPass.{IsSmall, MayPair, IsPairing, IsGrouped, IsProbed};
ghost use Rattle.markdown_attention.specs.AttentionTrees.{IsStriped};
ghost use Rattle.markdown_attention.specs.RunContainers.{AreByCloser};

use crate::attention::edits::group_runs;
use crate::attention::pairing::{Pair, pair_runs};
use crate::attention::runs::{Runs, Sequence};
use markdown_content::configuration::ParseOptions;
use markdown_engine::tokenizer::Tokenizer;
use markdown_engine_events::subtokenize::Subresult;
use std::alloc::{AllocError, Global};

// What pairing leaves: the runs as they stand, the pairs, and the number of looks.
#[derive(Drop)]
struct Pairing {
    runs: Vec<Sequence>,
    pairs: Vec<Pair>,
    probes: u128,
}

// Pairs the runs.
fn paired_runs(alloc: Global, options: ParseOptions, runs: Runs) -> Result<Pairing, AllocError>
    requires start { runs.turn ≡ 0 }
    requires unread { runs.probes ≡ 0 }
    requires whole { AreUntaken runs.list }
    requires markers { HaveMarkers runs.list }
    requires small { IsSmall runs.list }
    ensures pairing { IfOk result (λ p. IsPairing options runs.list p.runs.items p.pairs.items p.probes) }
    ensures order { IfOk result (λ p. AreByCloser p.pairs.items) }
{
    let mut runs = runs;
    let pairs = pair_runs(alloc, options, &mut runs)?;
    let probes = runs.probes();
    Ok(Pairing {
        runs: runs.finish(),
        pairs,
        probes,
    })
}

// Pairs the runs of the events, makes groups of the pairs, and answers the number of looks.
fn pair_and_group(tokenizer: &mut Tokenizer) -> Result<u128, AllocError>
    requires { MayPair tokenizer.old }
    ensures same { OnOk result (tokenizer.new ≡ record tokenizer.old { events = tokenizer.new.events }) }
    ensures grouped { IfOk result (λ probes.
        IsGrouped tokenizer.old.parse_state.now.options.now (runs_of_events tokenizer.old) tokenizer.old.events tokenizer.new.events probes) }
{
    let alloc = tokenizer.alloc;
    let options = *tokenizer.parse_state.options;
    let runs = Runs::new(tokenizer)?;
    let pairing = paired_runs(alloc, options, runs)?;
    group_runs(
        alloc,
        &mut tokenizer.events,
        &mut tokenizer.map,
        pairing.runs,
        pairing.pairs,
    )?;
    Ok(pairing.probes)
}

/// Makes groups of the runs that pair, in each container by itself: in the whole content, and in the text of each label.
///
/// The events of a run give way to those of the brackets that its pairs make of its markers, and to data over the markers that no pair
/// takes; nothing else changes, and links follow the events that they name. The `Enter` of a run stands between characters, before a
/// marker, and behind it an event between characters, as many columns as bytes further on, at a place that can be counted; both carry no
/// link. There are fewer than 2 ^ 63 markers, and the edits are empty before and after. Runs over equal markers, in order and without links, meet
/// all of this in every document that a content may be of (`HaveRunsInOrder`; the law is `markdown_model_laws::runs_in_order_may_pair`). `probes`
/// becomes the number of looks at a run as a possible opener of one closer. The work is that of the events, the runs and the pairs. The error
/// comes where memory is refused; then `failed` is true and `probes` as it was.
pub fn resolve_counted(tokenizer: &mut Tokenizer, probes: &mut u128) -> Result<(), AllocError>
    requires { MayPair tokenizer.old }
    ensures same { OnOk result (tokenizer.new ≡ record tokenizer.old { events = tokenizer.new.events }) }
    ensures grouped { OnOk result (IsGrouped tokenizer.old.parse_state.now.options.now
        (runs_of_events tokenizer.old) tokenizer.old.events tokenizer.new.events probes.new) }
    ensures paired { (s : Setting) (t : Forest) → IsOf s t tokenizer.old → HasRuns tokenizer.old.parse_state.now.bytes.now t → IsStriped t
        → tokenizer.old.events ≡ appended_from 0 None t → OnOk result (tokenizer.new.events ≡ appended_from 0 None (paired_whole s (pair_list s) t)) }
    ensures probed { (s : Setting) (t : Forest) → IsOf s t tokenizer.old → HasRuns tokenizer.old.parse_state.now.bytes.now t
        → tokenizer.old.events ≡ appended_from 0 None t → OnOk result (IsProbed s t probes.new) }
    ensures stays { OnErr result (probes.new ≡ probes.old) }
    ensures err { OnErr result (IsTrue tokenizer.new.failed) }
{
    match pair_and_group(tokenizer) {
        Err(error) => tokenizer.noted(Err(error)),
        Ok(count) => {
            *probes = count;
            Ok(())
        }
    }
}

/// The same as a pass by its name: the number of looks is kept in the scratch field `probes`.
pub fn resolve(tokenizer: &mut Tokenizer) -> Result<Option<Subresult>, AllocError>
    requires { MayPair tokenizer.old }
    ensures none { IfOk result (λ r. r ≡ None) }
    ensures same { OnOk result (tokenizer.new ≡ record tokenizer.old {
      events = tokenizer.new.events;
      tokenize_state = record tokenizer.old.tokenize_state { probes = tokenizer.new.tokenize_state.probes };
    }) }
    ensures grouped { OnOk result (IsGrouped tokenizer.old.parse_state.now.options.now
        (runs_of_events tokenizer.old) tokenizer.old.events tokenizer.new.events tokenizer.new.tokenize_state.probes) }
    ensures paired { (s : Setting) (t : Forest) → IsOf s t tokenizer.old → HasRuns tokenizer.old.parse_state.now.bytes.now t → IsStriped t
        → tokenizer.old.events ≡ appended_from 0 None t → OnOk result (tokenizer.new.events ≡ appended_from 0 None (paired_whole s (pair_list s) t)) }
    ensures probed { (s : Setting) (t : Forest) → IsOf s t tokenizer.old → HasRuns tokenizer.old.parse_state.now.bytes.now t
        → tokenizer.old.events ≡ appended_from 0 None t → OnOk result (IsProbed s t tokenizer.new.tokenize_state.probes) }
    ensures err { OnErr result (IsTrue tokenizer.new.failed) }
{
    let mut probes = 0;
    resolve_counted(tokenizer, &mut probes)?;
    tokenizer.tokenize_state.probes = probes;
    Ok(None)
}
