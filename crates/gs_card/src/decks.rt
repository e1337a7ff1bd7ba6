//! Decks: their kinds of cards and the copies of each.

ghost use Rattle.std.specs.Prelude.{◌≡◌, ◌<◌, ◌≤◌, ◌*◌, ◌||◌, ◌&&◌, IfOk, IfSome, IfNone, MatchResult, ℕ, length};
ghost use Rattle.std.specs.Prelude.{slice_index, nat_lt, ◌==◌, true, false, Some, position, All};
ghost use Rattle.std.specs.{List.{list_all, range_with_len}, Char.{is_ascii_alphanumeric, is_ascii_digit}};
ghost use Rattle.gs_model.specs.{Cards.{groups}, Outcome.{rank_of, suit_of}};
ghost use Rattle.gs_card.specs.{Decks.{DeckValue, IsDeck, IsTextOf, kinds, repeats, counts_of, deck_of_texts, card_text}, Groups.{IsGroup}};
ghost use Rattle.gs_card.specs.{Kinds.{HasLetters}, DeckFaults.{fault_of}, declared.faults.DeckError.TheVariants.{Fault, Memory}};

use crate::cards::{Card, Cards};
use crate::faults::{DeckError, DeckFault, MOST_KINDS};
use crate::groups::{Group, all_groups};
use std::alloc::{AllocError, Global};
use std::marker::Model;

/// The kinds of cards of a game: each pair of a rank and a suit, with the number of its copies. Ranks stand from the lowest to the highest.
#[derive(Drop)]
pub struct Deck {
    ranks: Vec<u8>,
    suits: Vec<u8>,
    counts: Vec<u8>,
}

impl Model for Deck {
    ghost use Rattle.gs_card.specs.Decks.{DeckValue, IsDeck};

    ghost Value = { DeckValue };

    ghost view = { λ d. record { ranks = d.ranks.items; suits = d.suits.items; counts = d.counts.items } };

    ghost invariant = { λ d. IsDeck (record { ranks = d.ranks.items; suits = d.suits.items; counts = d.counts.items }) };
}

/// Returns whether some letter occurs twice. It stops at the first repeated one, so it reads no more than 63 letters and digits.
fn has_repeat(letters: &[u8]) -> bool
    ensures { result ≡ repeats letters.now }
{
    for (i, letter) in letters.iter().enumerate() {
        if letters[..i].contains(letter) {
            return true;
        }
    }
    false
}

/// Returns the first place of the letter, none where it does not occur.
fn place_of(letters: &[u8], letter: u8) -> Option<usize>
    ensures { result ≡ position (λ other. other == letter) letters.now }
{
    letters.iter().position(|other| *other == letter)
}

/// Returns the number of the kind with these letters, none where no kind has them.
fn number_of(ranks: &[u8], suits: &[u8], rank: u8, suit: u8) -> Option<u8>
    requires few { length ranks.now * length suits.now ≤ MOST_KINDS }
    requires ranks_differ { repeats ranks.now ≡ false }
    requires suits_differ { repeats suits.now ≡ false }
    ensures found { IfSome result (HasLetters ranks.now suits.now rank suit) }
    ensures all { (n : ℕ) → HasLetters ranks.now suits.now rank suit n → result ≡ Some n }
{
    let row = place_of(ranks, rank)?;
    let column = place_of(suits, suit)?;
    Some((row * suits.len() + column) as u8)
}

/// Returns whether all bytes are ASCII letters or digits.
fn are_letters(letters: &[u8]) -> bool
    ensures { result ≡ list_all is_ascii_alphanumeric letters.now }
{
    letters.iter().all(|letter| letter.is_ascii_alphanumeric())
}

/// Returns whether all bytes are digits.
fn are_digits(digits: &[u8]) -> bool
    ensures { result ≡ list_all is_ascii_digit digits.now }
{
    digits.iter().all(|digit| digit.is_ascii_digit())
}

/// Returns whether the text of the copies is empty or has one digit for each kind.
fn are_copies(kinds: usize, copies: &[u8]) -> bool
    ensures { result ≡ ((length copies.now == 0) || ((length copies.now == kinds) && list_all is_ascii_digit copies.now)) }
{
    copies.is_empty() || copies.len() == kinds && are_digits(copies)
}

/// Returns whether there are more than `MOST_KINDS` kinds, which is too many for a deck.
fn are_too_many(ranks: usize, suits: usize) -> bool
    requires some_ranks { 0 < ranks }
    requires some_suits { 0 < suits }
    ensures { result ≡ nat_lt MOST_KINDS (ranks * suits) }
{
    ranks > MOST_KINDS || suits > MOST_KINDS || ranks * suits > MOST_KINDS
}

/// Returns why these texts make no deck, none where they make one.
fn fault(ranks: &[u8], suits: &[u8], copies: &[u8]) -> Option<DeckFault>
    ensures { result ≡ fault_of ranks.now suits.now copies.now }
{
    if ranks.is_empty() || suits.is_empty() {
        Some(DeckFault::NoCards)
    } else if !(are_letters(ranks) && are_letters(suits)) {
        Some(DeckFault::BadLetter)
    } else if has_repeat(ranks) || has_repeat(suits) {
        Some(DeckFault::RepeatedLetter)
    } else if are_too_many(ranks.len(), suits.len()) {
        Some(DeckFault::TooManyKinds)
    } else if !are_copies(ranks.len() * suits.len(), copies) {
        Some(DeckFault::BadCopies)
    } else {
        None
    }
}

/// Returns the number of copies of each kind: 1 where the text of the copies is empty, else its digits. Fails only if memory runs out.
fn counts(alloc: Global, kinds: usize, copies: &[u8]) -> Result<Vec<u8>, AllocError>
    requires { list_all is_ascii_digit copies.now ≡ true }
    ensures { IfOk result (λ v. v.items ≡ counts_of kinds copies.now) }
{
    if copies.is_empty() {
        vec![in alloc; 1; kinds]
    } else {
        let mut counts = Vec::with_capacity(alloc, kinds)?;
        for digit in copies {
            counts.push(*digit - b'0')?;
        }
        Ok(counts)
    }
}

impl Deck {
    /// Makes the deck of these ranks, lowest first, these suits and these copies. `copies` has a digit for each kind; empty, it stands for one copy of each
    /// kind.
    ///
    /// Fails with the first `DeckFault` that applies, or if memory runs out.
    pub fn new(alloc: Global, ranks: &str, suits: &str, copies: &str) -> Result<Deck, DeckError>
        ensures refused { IfSome (fault_of ranks.now suits.now copies.now) (λ fault. result ≡ Err (Fault fault)) }
        ensures made { IfNone (fault_of ranks.now suits.now copies.now)
            (MatchResult result (λ deck. deck ≡ deck_of_texts ranks.now suits.now copies.now) (λ error. error ≡ Memory)) }
        ensures deck { IfOk result IsDeck }
    {
        let ranks = ranks.as_bytes();
        let suits = suits.as_bytes();
        let copies = copies.as_bytes();
        if let Some(fault) = fault(ranks, suits, copies) {
            return Err(DeckError::Fault(fault));
        }
        let counts = counts(alloc, ranks.len() * suits.len(), copies)?;
        let ranks = Vec::from_slice(alloc, ranks)?;
        let suits = Vec::from_slice(alloc, suits)?;
        Ok(Deck {
            ranks,
            suits,
            counts,
        })
    }

    /// Returns a deck of the same cards. Fails only if memory runs out.
    pub fn copy(&self, alloc: Global) -> Result<Deck, AllocError>
        ensures { IfOk result (λ deck. deck ≡ self.now) }
    {
        Ok(Deck {
            ranks: Vec::from_slice(alloc, &self.ranks)?,
            suits: Vec::from_slice(alloc, &self.suits)?,
            counts: Vec::from_slice(alloc, &self.counts)?,
        })
    }

    /// Returns the letters of the ranks, the lowest rank first.
    pub fn ranks(&self) -> &[u8]
        ensures letters { result.now ≡ self.now.ranks }
        ensures deck { IsDeck self.now }
    {
        self.ranks.as_slice()
    }

    /// Returns the letters of the suits.
    pub fn suits(&self) -> &[u8]
        ensures letters { result.now ≡ self.now.suits }
        ensures deck { IsDeck self.now }
    {
        self.suits.as_slice()
    }

    /// Returns the number of copies of each kind.
    pub fn counts(&self) -> &[u8]
        ensures counts { result.now ≡ self.now.counts }
        ensures deck { IsDeck self.now }
    {
        self.counts.as_slice()
    }

    /// Returns the number of kinds of cards.
    pub fn kinds(&self) -> u8
        ensures number { result ≡ kinds self.now }
        ensures deck { IsDeck self.now }
    {
        self.counts.len() as u8
    }

    /// Returns the number of copies of the card.
    pub fn count(&self, card: Card) -> u8
        requires { card < kinds self.now }
        ensures { result ≡ slice_index self.now.counts card }
    {
        self.counts[card.number() as usize]
    }

    /// Returns the card's rank, from 0 for the lowest.
    pub fn rank(&self, card: Card) -> u8
        requires { card < kinds self.now }
        ensures rank { result ≡ rank_of (length self.now.suits) card }
        ensures of_deck { result < length self.now.ranks }
    {
        card.number() / self.suits.len() as u8
    }

    /// Returns the card's suit, from 0 for the first.
    pub fn suit(&self, card: Card) -> u8
        requires { card < kinds self.now }
        ensures suit { result ≡ suit_of (length self.now.suits) card }
        ensures of_deck { result < length self.now.suits }
    {
        card.number() % self.suits.len() as u8
    }

    /// Returns the letter of the card's rank and the letter of its suit.
    pub fn card_text(&self, card: Card) -> [u8; 2]
        requires { card < kinds self.now }
        ensures letters { result ≡ card_text self.now card }
        ensures deck { IsDeck self.now }
    {
        let rank_letter = self.ranks[self.rank(card) as usize];
        let suit_letter = self.suits[self.suit(card) as usize];
        [rank_letter, suit_letter]
    }

    /// Returns the card with this text, a letter for the rank and a letter for the suit; none where no kind has this text.
    pub fn card_of(&self, text: &str) -> Option<Card>
        ensures found { IfSome result (IsTextOf self.now text.now) }
        ensures all { (card : ℕ) → IsTextOf self.now text.now card → result ≡ Some card }
    {
        let &[rank, suit] = text.as_bytes() else {
            return None;
        };
        let number = number_of(&self.ranks, &self.suits, rank, suit)?;
        Some(Card::new(number))
    }

    /// Returns all cards of the deck, in order.
    pub fn cards(&self) -> Cards
        ensures { result ≡ range_with_len 0 (kinds self.now) }
    {
        Cards {
            next: 0,
            end: self.kinds(),
        }
    }

    /// Returns all groups of `size` cards that `left` allows, in lexicographic order. `left` has the number of copies of each kind. Keep `size` small: there
    /// are many groups. Fails only if memory runs out.
    pub fn groups(&self, alloc: Global, left: &[u8], size: u8) -> Result<Vec<Group>, AllocError>
        requires { length left.now ≡ kinds self.now }
        ensures all { IfOk result (λ found. found.items ≡ groups left.now size) }
        ensures each { IfOk result (λ found. All (IsGroup left.now size) found.items) }
        ensures within { IfOk result (λ found. All (λ g. All (λ card. card < length left.now) g) found.items) }
    {
        // read only for what its contract says
        let _few = &self.counts;
        all_groups(alloc, left, size)
    }
}
