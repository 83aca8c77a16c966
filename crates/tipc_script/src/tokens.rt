//! The tokens of a line, with the place of each.

ghost use Rattle.std.specs.Prelude.{◌≡◌, ◌≢◌, ◌+◌, ◌-◌, ◌*◌, ◌<◌, ◌≤◌, ◌^◌, ◌&&◌, ◌==◌, ◌↔◌, not, true, length, IfSome, IfNone, IfOk, MatchOption, IsTrue, position, OnOk, Some, None, if◌then◌else◌, drop, [], ◌∷◌, codes, ℕ};
ghost use Rattle.std.specs.Option.{option_copied};
ghost use Rattle.std.specs.Str.{bytes_eq};
ghost use Rattle.tipc_script.specs.Splitting.{whole, first_token, behind, tokens_of, pieces, is_space};
ghost use Rattle.tipc_script.specs.Kinds.{body_of, filter_in, filter_of, form_in, form_of, importance_in, importance_of, is_body, is_filter, is_form, is_importance, is_number, is_scope, number_of, scope_in, scope_of};
ghost use Rattle.tipc_script.specs.Faults.{Tells, TellsAlways, first_fault, missing_fault, end_fault};

use crate::body::body_in;
use crate::faults::{LineFault, LineWhy};
use crate::lines::{Filter, NodeToken, SendForm};
use crate::numbers::number_in;
use std::alloc::Global;
use std::marker::Model;
use tipc_types::{Body, Importance, Scope};

/// The highest number of a port, a service type, an instance, a key, a timeout or a subscription.
pub const HIGHEST_NUMBER: u32 = u32::MAX;

/// The tokens that are left of a line, from the left.
#[derive(Drop)]
pub struct Tokens<'a> {
    /// The bytes that are left, unless the last token was taken.
    rest: Option<&'a [u8]>,
    /// The line's length plus 1.
    end: u32,
}

impl<'a> Model for Tokens<'a> {
    ghost use Rattle.std.specs.Prelude.{◌<◌, ◌+◌, ◌^◌, length, IfSome};
    ghost use Rattle.std.specs.Option.{option_copied};
    ghost use Rattle.tipc_script.specs.Splitting.{Left, left_in};

    ghost Value = { Left };

    ghost view = { λ t. left_in (option_copied t.rest) t.end };

    ghost invariant = { λ t. IfSome t.rest (λ bytes. length bytes.now < t.end) × (t.end < 2 ^ 31 + 1) };
}

impl<'a> Tokens<'a> {
    /// The tokens of a line.
    pub fn new(line: &'a [u8]) -> Tokens<'a>
        requires { length line.now < 2 ^ 31 }
        ensures { result ≡ whole line.now }
    {
        Tokens {
            rest: Some(line),
            end: line.len() as u32 + 1,
        }
    }

    /// Where the next token begins, from 1.
    pub fn place(&self) -> u32
        ensures { result ≡ self.now.place }
    {
        match self.rest {
            None => self.end + 1,
            Some(bytes) => self.end - bytes.len() as u32,
        }
    }

    /// The next token, which is taken; None where none is left.
    pub fn next(&mut self) -> Option<&'a [u8]>
        ensures none { IfNone result ((self.old.tokens ≡ []) × (self.new ≡ self.old)) }
        ensures some { IfSome result (λ token. (self.old.tokens ≡ token.now ∷ drop 1 self.old.tokens) ×
            (self.new ≡ behind self.old)) }
    {
        let bytes = self.rest?;
        let (token, rest) = token_at_front(bytes);
        self.rest = rest;
        Some(token)
    }

    /// The next token, which passes a test or not: a fault exactly where none is left.
    #[tactic(auto, unfolding(crate::specs::Faults::missing_fault))]
    fn token(&mut self) -> Result<&'a [u8], LineFault>
        ensures ok { IfOk result (λ token. (self.old.tokens ≡ token.now ∷ drop 1 self.old.tokens) ×
            (self.new ≡ behind self.old)) }
        ensures fault { TellsAlways result (missing_fault self.old) }
    {
        let Some(token) = self.next() else {
            return Err(LineFault::BadLine {
                place: self.end,
                why: LineWhy::End,
            });
        };
        Ok(token)
    }

    /// The next token as a number from `low` to `high`.
    #[tactic(auto, unfolding(crate::specs::Faults::first_fault, crate::specs::Faults::missing_fault))]
    pub fn number(&mut self, low: u32, high: u32) -> Result<u32, LineFault>
        ensures ok { IfOk result (λ number. (self.new ≡ behind self.old) ×
            (number ≡ number_of (first_token self.old)) × (low ≤ number) × (number ≤ high)) }
        ensures fault { TellsAlways result (first_fault (is_number low high) LineWhy.Number self.old) }
    {
        let place = self.place();
        let token = self.token()?;
        let Some(number) = number_in(token, low, high) else {
            return Err(LineFault::BadLine {
                place,
                why: LineWhy::Number,
            });
        };
        Ok(number)
    }

    /// The next token as the number of a node.
    pub fn node_number(&mut self) -> Result<u8, LineFault>
        ensures ok { IfOk result (λ node. (self.new ≡ behind self.old) × (node ≡ number_of (first_token self.old)) ×
            (1 ≤ node) × (node ≤ 32)) }
        ensures fault { TellsAlways result (first_fault (is_number 1 32) LineWhy.Number self.old) }
    {
        Ok(self.number(1, 32)? as u8)
    }

    /// The next token as the number of a node of which it is asked whether it is there.
    pub fn node(&mut self, there: bool) -> Result<NodeToken, LineFault>
        ensures ok { IfOk result (λ token. (self.new ≡ behind self.old) ×
            (token ≡ record { place = self.old.place; node = number_of (first_token self.old); there = there }) ×
            (1 ≤ token.node) × (token.node ≤ 32)) }
        ensures fault { TellsAlways result (first_fault (is_number 1 32) LineWhy.Number self.old) }
    {
        let place = self.place();
        let node = self.node_number()?;
        Ok(NodeToken { place, node, there })
    }

    /// The next token, which is to be this word; else the fault has this reason.
    #[tactic(auto, unfolding(crate::specs::Faults::first_fault, crate::specs::Faults::missing_fault))]
    pub fn word(&mut self, word: &[u8], why: LineWhy) -> Result<(), LineFault>
        ensures ok { OnOk result (self.new ≡ behind self.old) }
        ensures fault { TellsAlways result (first_fault (λ token. bytes_eq token word.now) why self.old) }
    {
        let place = self.place();
        let token = self.token()?;
        if token != word {
            return Err(LineFault::BadLine { place, why });
        }
        Ok(())
    }

    /// The next token as the form of a destination.
    #[tactic(auto, unfolding(crate::specs::Faults::first_fault, crate::specs::Faults::missing_fault))]
    pub fn form(&mut self) -> Result<SendForm, LineFault>
        ensures ok { IfOk result (λ form. (self.new ≡ behind self.old) × (form ≡ form_of (first_token self.old))) }
        ensures fault { TellsAlways result (first_fault is_form LineWhy.Word self.old) }
    {
        let place = self.place();
        let token = self.token()?;
        let Some(form) = form_in(token) else {
            return Err(LineFault::BadLine {
                place,
                why: LineWhy::Word,
            });
        };
        Ok(form)
    }

    /// The next token as a scope.
    #[tactic(auto, unfolding(crate::specs::Faults::first_fault, crate::specs::Faults::missing_fault))]
    pub fn scope(&mut self) -> Result<Scope, LineFault>
        ensures ok { IfOk result (λ scope. (self.new ≡ behind self.old) × (scope ≡ scope_of (first_token self.old))) }
        ensures fault { TellsAlways result (first_fault is_scope LineWhy.Word self.old) }
    {
        let place = self.place();
        let token = self.token()?;
        let Some(scope) = scope_in(token) else {
            return Err(LineFault::BadLine {
                place,
                why: LineWhy::Word,
            });
        };
        Ok(scope)
    }

    /// The next token as a filter.
    #[tactic(auto, unfolding(crate::specs::Faults::first_fault, crate::specs::Faults::missing_fault))]
    pub fn filter(&mut self) -> Result<Filter, LineFault>
        ensures ok { IfOk result (λ filter. (self.new ≡ behind self.old) ×
            (filter ≡ filter_of (first_token self.old))) }
        ensures fault { TellsAlways result (first_fault is_filter LineWhy.Word self.old) }
    {
        let place = self.place();
        let token = self.token()?;
        let Some(filter) = filter_in(token) else {
            return Err(LineFault::BadLine {
                place,
                why: LineWhy::Word,
            });
        };
        Ok(filter)
    }

    /// The next token as an importance.
    #[tactic(auto, unfolding(crate::specs::Faults::first_fault, crate::specs::Faults::missing_fault))]
    pub fn importance(&mut self) -> Result<Importance, LineFault>
        ensures ok { IfOk result (λ importance. (self.new ≡ behind self.old) ×
            (importance ≡ importance_of (first_token self.old))) }
        ensures fault { TellsAlways result (first_fault is_importance LineWhy.Word self.old) }
    {
        let place = self.place();
        let token = self.token()?;
        let Some(importance) = importance_in(token) else {
            return Err(LineFault::BadLine {
                place,
                why: LineWhy::Word,
            });
        };
        Ok(importance)
    }

    /// The bytes that the next token stands for as a body.
    #[tactic(auto, unfolding(crate::specs::Faults::first_fault, crate::specs::Faults::missing_fault))]
    pub fn body(&mut self, alloc: Global) -> Result<Body, LineFault>
        ensures ok { IfOk result (λ body. (self.new ≡ behind self.old) × (body ≡ body_of (first_token self.old))) }
        ensures fault { Tells result (first_fault is_body LineWhy.Body self.old) }
    {
        let place = self.place();
        let token = self.token()?;
        let Some(body) = body_in(alloc, token)? else {
            return Err(LineFault::BadLine {
                place,
                why: LineWhy::Body,
            });
        };
        Ok(body)
    }

    /// That no token is left.
    #[tactic(auto, unfolding(crate::specs::Faults::end_fault))]
    pub fn finish(&mut self) -> Result<(), LineFault>
        ensures { TellsAlways result (end_fault self.old) }
    {
        let place = self.place();
        let Some(_more) = self.next() else {
            return Ok(());
        };
        Err(LineFault::BadLine {
            place,
            why: LineWhy::End,
        })
    }
}

/// Whether a token is a word.
pub fn is_word(token: &[u8], word: &[u8]) -> bool
    ensures { result ≡ bytes_eq token.now word.now }
{
    token == word
}

/// The form of a destination that a token is.
#[tactic(auto, unfolding(crate::specs::Kinds::form_in))]
fn form_in(token: &[u8]) -> Option<SendForm>
    ensures { result ≡ form_in token.now }
{
    if is_word(token, b"name") {
        return Some(SendForm::Name);
    }
    if is_word(token, b"port") {
        return Some(SendForm::Port);
    }
    if is_word(token, b"cast") {
        return Some(SendForm::Cast);
    }
    None
}

/// The scope that a token is.
#[tactic(auto, unfolding(crate::specs::Kinds::scope_in))]
fn scope_in(token: &[u8]) -> Option<Scope>
    ensures { result ≡ scope_in token.now }
{
    if is_word(token, b"zone") {
        return Some(Scope::Zone);
    }
    if is_word(token, b"cluster") {
        return Some(Scope::Cluster);
    }
    if is_word(token, b"node") {
        return Some(Scope::Node);
    }
    None
}

/// The filter that a token is.
#[tactic(auto, unfolding(crate::specs::Kinds::filter_in))]
fn filter_in(token: &[u8]) -> Option<Filter>
    ensures { result ≡ filter_in token.now }
{
    if is_word(token, b"ports") {
        return Some(Filter::Ports);
    }
    if is_word(token, b"service") {
        return Some(Filter::Service);
    }
    None
}

/// The importance that a token is.
#[tactic(auto, unfolding(crate::specs::Kinds::importance_in))]
fn importance_in(token: &[u8]) -> Option<Importance>
    ensures { result ≡ importance_in token.now }
{
    if is_word(token, b"low") {
        return Some(Importance::Low);
    }
    if is_word(token, b"medium") {
        return Some(Importance::Medium);
    }
    if is_word(token, b"high") {
        return Some(Importance::High);
    }
    if is_word(token, b"critical") {
        return Some(Importance::Critical);
    }
    None
}

/// Where the first space stands, if there is one.
fn space_in(bytes: &[u8]) -> Option<usize>
    ensures { result ≡ position is_space bytes.now }
{
    bytes.iter().position(|byte| *byte == b' ')
}

/// The token at the front of some bytes, and what stands behind the space after it, if there is one.
fn token_at_front(bytes: &[u8]) -> (&[u8], Option<&[u8]>)
    ensures tokens { tokens_of bytes.now ≡ result.0.now ∷ pieces (option_copied result.1) }
    ensures lengths { MatchOption result.1 (length bytes.now ≡ length result.0.now) (λ rest. length bytes.now ≡
        length result.0.now + length rest.now + 1) }
{
    let Some(len) = space_in(bytes) else {
        return (bytes, None);
    };
    (&bytes[..len], Some(&bytes[len + 1..]))
}
