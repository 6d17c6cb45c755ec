// What each statement adds.
ghost use Rattle.std.specs.Prelude.{◌≡◌, IfOk, length};
ghost use Rattle.parts.specs.Parts.{entry_of};
ghost use Rattle.store.specs.Try.{Gives};
ghost use Rattle.text.specs.Text.{head_of, work_of, stated_of};
ghost use Rattle.graph.specs.Data.{edge_of};
ghost use Rattle.draft.specs.State.{no_state, stated};
ghost use Rattle.draft.specs.Statements.{rule_at, add_variable, add_rule, add_pool, add_edge, add};
ghost use Rattle.draft.specs.Drafts.{state_of};

use crate::blocks::{last_depth, set_lines};
use crate::kinds::Draft;
use cursor::Place;
use expansion::Texts;
use graph::Pool;
use lists::{Known, Paths, take_paths};
use names::{depth_of, last_value, place_of};
use parts::Binding;
use std::alloc::{AllocError, Global};
use store::{Stop, Wrong};
use text::{Body, Declared, Edge, Statement};

// How many rules, pools and edges there may be.
const RULES: usize = 64;

const POOLS: usize = 16;

const EDGES: usize = 128;

// An edge as its statement says it; what its rule says comes later.
fn stated_edge(heap: Global, place: Place, w: &Edge, paths: Paths) -> graph::Edge
    ensures { edge_of result ≡ stated place.byte paths.outputs.items (length (work_of w.now).outs.explicit) paths.reads.items (length (work_of w.now).ins.explicit) paths.order_only.items paths.validations.items }
{
    graph::Edge {
        place,
        outputs: paths.outputs,
        explicit_outputs: w.outputs.explicit.len(),
        reads: paths.reads,
        explicit_reads: w.inputs.explicit.len(),
        order_only: paths.order_only,
        validations: paths.validations,
        question: Vec::new(heap),
        description: Vec::new(heap),
        pool: None,
        restat: false,
    }
}

impl<'a> Draft<'a> {
    // A draft of no statements.
    pub fn new(heap: Global) -> Result<Draft<'a>, AllocError>
        ensures { IfOk result (λ d. state_of d ≡ no_state) }
    {
        let texts = Texts::new(heap)?;
        Ok(Draft {
            known: Known {
                texts,
                files: Vec::new(heap),
            },
            rules: Vec::new(heap),
            pools: Vec::new(heap),
            edges: Vec::new(heap),
            chosen: Vec::new(heap),
        })
    }

    fn add_variable(&mut self, b: Binding<'a>) -> Result<(), Stop>
        ensures { Gives (λ _. state_of self.new) result (add_variable (state_of self.old) (entry_of b.entry)) }
    {
        self.known.texts.set_file(b)
    }

    fn add_rule(&mut self, d: Declared<'a>) -> Result<(), Stop>
        ensures { Gives (λ _. state_of self.new) result (add_rule (state_of self.old) (head_of d.entry)) }
    {
        if place_of(&self.rules, d.name).is_some() {
            return Err(Stop::Because(Wrong::Again));
        }
        if self.rules.len() >= RULES {
            return Err(Stop::Because(Wrong::Limit));
        }
        if last_value(&d.lines, b"command").is_none() {
            return Err(Stop::Because(Wrong::Lacks));
        }
        self.rules.push(d)?;
        Ok(())
    }

    fn add_pool(&mut self, heap: Global, d: &Declared<'a>) -> Result<(), Stop>
        ensures { Gives (λ _. state_of self.new) result (add_pool (state_of self.old) (head_of d.now)) }
    {
        if place_of(&self.pools, d.name).is_some() {
            return Err(Stop::Because(Wrong::Again));
        }
        if self.pools.len() >= POOLS {
            return Err(Stop::Because(Wrong::Limit));
        }
        let text = last_depth(&mut self.known.texts, &d.lines)?;
        let depth = depth_of(self.known.texts.text(text)).ok_or(Wrong::Lacks)?;
        let name = Vec::from_slice(heap, d.name)?;
        self.pools.push(Pool { name, depth })?;
        Ok(())
    }

    fn add_build(&mut self, heap: Global, place: Place, w: &Edge<'a>) -> Result<(), Stop>
        ensures { Gives (λ _. state_of self.new) result (add_edge (rule_at (state_of self.old).rules w.now.rule.now) (state_of self.old) place.byte (work_of w.now)) }
    {
        let rule = place_of(&self.rules, w.rule).ok_or(Wrong::Unknown)?;
        let e = self.edges.len();
        if e >= EDGES {
            return Err(Stop::Because(Wrong::Limit));
        }
        set_lines(&mut self.known.texts, &w.lines)?;
        let paths = take_paths(e, &mut self.known, w)?;
        self.known.texts.close_block()?;
        self.edges.push(stated_edge(heap, place, w, paths))?;
        self.chosen.push(rule)?;
        Ok(())
    }

    // Adds what a statement says. After a refusal the draft is of no more use.
    #[tactic(auto, unfolding(crate::specs::Statements::add))]
    pub fn add(&mut self, heap: Global, x: Statement<'a>) -> Result<(), Stop>
        ensures { Gives (λ _. state_of self.new) result (add (state_of self.old) (stated_of x.entry)) }
    {
        let Statement { place, body } = x;
        match body {
            Body::Variable(b) => self.add_variable(b),
            Body::Rule(d) => self.add_rule(d),
            Body::Pool(d) => self.add_pool(heap, &d),
            Body::Build(w) => self.add_build(heap, place, &w),
        }
    }
}
