// What each step on the table tells.
ghost use Rattle.turn_lock.specs.inner.Steps.{AfterDraw, AfterLook, AfterFind, AfterNote, AfterServe, AfterCensus, AfterCount, AfterEnrol, AfterTake, AfterKnow, spent_view};
ghost use Rattle.turn_lock.specs.Passes.{split_view, joined_view};

use crate::chronicle::Chronicle;
use crate::view::View;
use atomic_table::{Join, Play, Split};

pub(crate) struct Draw;

impl<V: Chronicle> Play<Option<V>, View<V::Entry>> for Draw {
    ghost then = { AfterDraw };
}

pub(crate) struct Look;

impl<V: Chronicle> Play<Option<V>, View<V::Entry>> for Look {
    ghost then = { AfterLook };
}

pub(crate) struct Find;

impl<V: Chronicle> Play<Option<V>, View<V::Entry>> for Find {
    ghost then = { AfterFind V.entries V.author };
}

pub(crate) struct Note;

impl<V: Chronicle> Play<Option<V>, View<V::Entry>> for Note {
    ghost then = { AfterNote V.entries V.author };
}

pub(crate) struct Serve;

impl<V: Chronicle> Play<Option<V>, View<V::Entry>> for Serve {
    ghost then = { AfterServe V.author };
}

pub(crate) struct Take;

impl<V: Chronicle> Play<Option<V>, View<V::Entry>> for Take {
    ghost then = { AfterTake };
}

pub(crate) struct Count;

impl<V: Chronicle> Play<Option<V>, View<V::Entry>> for Count {
    ghost then = { AfterCount V.author };
}

pub(crate) struct Census;

impl<V: Chronicle> Play<Option<V>, View<V::Entry>> for Census {
    ghost then = { AfterCensus V.author };
}

pub(crate) struct Enrol;

impl<V: Chronicle> Play<Option<V>, View<V::Entry>> for Enrol {
    ghost then = { AfterEnrol V.author };
}

pub(crate) struct Know;

impl<V: Chronicle> Play<Option<V>, View<V::Entry>> for Know {
    ghost then = { AfterKnow V.author };
}

pub(crate) struct Twin;

impl<E> Split<View<E>> for Twin {
    ghost left = { λ v. v };

    ghost right = { split_view };
}

pub(crate) struct Meet;

impl<E> Join<View<E>> for Meet {
    ghost both = { joined_view };

    ghost spent = { spent_view };
}
