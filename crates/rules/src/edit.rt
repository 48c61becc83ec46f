// What a rule makes of an engine: the words of its process that change, and a value.
ghost use Rattle.std.specs.Prelude.{◌≡◌};
ghost use Rattle.rules.specs.Storing.{storing};
ghost use Rattle.rules.specs.Rewriting.{turned};
ghost use Rattle.rules.specs.Editing.{made, hollow_w, nil_w, plain_w, replaced_w};

use crate::rewriting::Rewriting;
use crate::store::{Store, nothing};
use finding::find::Site;
use layout::number::further;
use writers::write::put;

// An engine's process start..end, and the process found in it.
#[derive(Clone, Copy)]
pub struct Side {
    pub start: usize,
    pub end: usize,
    pub site: Site,
}

// The words list..past become the first `listed` fresh words, from..upto the fresh words listed..fresh, and
// gap..end go; the engine's variables take what `store` says.
#[derive(Clone, Copy)]
pub struct Edit {
    pub list: usize,
    pub past: usize,
    pub listed: usize,
    pub from: usize,
    pub upto: usize,
    pub fresh: usize,
    pub gap: usize,
    pub end: usize,
    pub store: Store,
}

// A nil behind the first `f` fresh words, if one is to stand there.
#[tactic(auto, unfolding(crate::specs::Editing::hollow_w))]
fn hollow(hollow: bool, f: usize, fresh: &mut [u16]) -> usize
    ensures place { result ≡ (hollow_w hollow f fresh.old).to }
    ensures fresh { fresh.new ≡ (hollow_w hollow f fresh.old).fresh }
{
    if hollow {
        return put(fresh, f, 0);
    }
    f
}

// The process becomes nil, and the list l..m the first `f` fresh words.
#[tactic(auto, unfolding(crate::specs::Editing::nil_w))]
pub fn become_nil(s: Site, l: usize, m: usize, f: usize, store: Store, fresh: &mut [u16]) -> Edit
    ensures edited { made result ≡ (nil_w s l m f (storing store) fresh.old).edit }
    ensures fresh { fresh.new ≡ (nil_w s l m f (storing store) fresh.old).fresh }
{
    let g = hollow(s.hollow, f, fresh);
    Edit {
        list: l,
        past: m,
        listed: f,
        from: s.from,
        upto: s.upto,
        fresh: g,
        gap: s.gap,
        end: s.end,
        store,
    }
}

// The process becomes nil; no list changes.
pub fn vanish(side: Side, store: Store, fresh: &mut [u16]) -> Edit
    ensures edited { made result ≡ (nil_w side.site side.start side.start 0 (storing store) fresh.old).edit }
    ensures fresh { fresh.new ≡ (nil_w side.site side.start side.start 0 (storing store) fresh.old).fresh }
{
    become_nil(side.site, side.start, side.start, 0, store, fresh)
}

// The words from..upto become the first `fresh` fresh words; no list changes, and no variable. The engine's process begins at `start`.
pub fn replaced(start: usize, from: usize, upto: usize, fresh: usize) -> Edit
    ensures { made result ≡ replaced_w start from upto fresh }
{
    Edit {
        list: start,
        past: start,
        listed: 0,
        from,
        upto,
        fresh,
        gap: upto,
        end: upto,
        store: nothing(),
    }
}

// The process turns into what `t` says; no list changes.
#[tactic(auto, unfolding(crate::specs::Editing::plain_w))]
pub fn plain(side: Side, t: Rewriting, fresh: &mut [u16]) -> Edit
    ensures edited { made result ≡ (plain_w side.site side.start (turned t) fresh.old).edit }
    ensures fresh { fresh.new ≡ (plain_w side.site side.start (turned t) fresh.old).fresh }
{
    let at = side.site.at;
    let store = t.store;
    match t.kept {
        None => vanish(side, store, fresh),
        Some(kept) => Edit {
            list: side.start,
            past: side.start,
            listed: 0,
            from: at,
            upto: further(at, kept.from),
            fresh: kept.fresh,
            gap: further(at, kept.upto),
            end: further(at, kept.end),
            store,
        },
    }
}
