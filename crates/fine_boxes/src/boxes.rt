//! The law of the views, beside that of the places.

use crate::law::BoxLaw;
use crate::model::Reads;
use fine_places::BesideLaw;
use std::marker::PhantomData;

/// The rule of the mailboxes (`Keeps` in `specs/Boxes.antt`), for views of which W says what they are.
pub struct Boxes<W> {
    law: PhantomData<W>,
}

impl<T, X, N, W: BoxLaw<T, X, N>> BesideLaw<T, X, N, Reads<N>> for Boxes<W> {
    ghost use Rattle.fine_boxes.specs.Boxes.{Keeps, Learns, Owes, first_notes, cut_left, cut_right, both, nothing, taking, given};
    ghost use Rattle.fine_boxes.specs.Placing.{boxes_stay, boxes_take, boxes_give, boxes_split, boxes_join};

    ghost keeps = { Keeps W.seats W.view W.board W.sealed W.backs W.shows W.above W.returned };

    ghost first = { λ x. first_notes (W.fronts x) };

    ghost left = { cut_left };

    ghost right = { cut_right };

    ghost both = { both };

    ghost spent = { nothing };

    ghost taken = { taking W.board W.sealed W.backs };

    ghost given = { λ y thing. given y };

    ghost learns = { Learns W.seats W.board W.sealed W.backs };

    ghost owes = { Owes W.board W.sealed W.backs W.above W.returned };

    ghost stays = { boxes_stay W.seats W.view W.board W.sealed W.backs W.shows W.above W.returned };

    ghost takes = { boxes_take W.seats W.view W.board W.sealed W.backs W.shows W.above W.returned };

    ghost gives = { boxes_give W.seats W.view W.board W.sealed W.backs W.shows W.above W.returned W.more W.lower };

    ghost splits = { boxes_split W.seats W.view W.board W.sealed W.backs W.shows W.above W.returned };

    ghost joins = { boxes_join W.seats W.view W.board W.sealed W.backs W.shows W.above W.returned };
}
