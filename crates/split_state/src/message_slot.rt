ghost use Rattle.std.specs.Prelude.{◌≡◌, ◌≢◌, ◌+◌, ◌^◌, None, IfSome, IfNone, IsTrue, IsFalse, option_map};
ghost use Rattle.split_state.specs.Staged.{IsFresh, IsInHand, taken, executed, aborted, committed};
ghost use Rattle.split_state.specs.declared.abort_outcome.AbortOutcome.TheVariants as given;
ghost use Rattle.split_state.specs.declared.message_stage.MessageStage.TheVariants as stage;

use crate::abort_outcome::AbortOutcome;
use crate::attempt::Attempt;
use crate::message_stage::MessageStage;
use std::marker::Model;

/// Where one message stands, and its last execution, which is true by its type.
#[derive(Drop)]
pub struct MessageSlot {
    stage: MessageStage,
    incarnation: u32,
    attempt: Option<Box<Attempt>>,
    // The execution whose entries the message has, where it was aborted and no other was kept since.
    former: Option<Box<Attempt>>,
}

impl Model for MessageSlot {
    ghost use Rattle.std.specs.Prelude.{option_map};
    ghost use Rattle.split_state.specs.Staged.{MessageSlot};

    ghost Value = { MessageSlot };

    ghost view = { λ s. record { stage = s.stage; incarnation = s.incarnation; attempt = option_map (λ b. b.value) s.attempt; former = option_map (λ b. b.value) s.former } };
}

impl MessageSlot {
    /// The slot of a message that was never executed.
    pub fn new() -> MessageSlot
        ensures { IsFresh result }
    {
        MessageSlot {
            stage: MessageStage::Ready,
            incarnation: 0,
            attempt: None,
            former: None,
        }
    }

    /// Where the message stands.
    pub fn stage(&self) -> MessageStage
        ensures { result ≡ self.now.stage }
    {
        self.stage
    }

    /// The message's incarnation: how often it was aborted.
    pub fn incarnation(&self) -> u32
        ensures { result ≡ self.now.incarnation }
    {
        self.incarnation
    }

    /// The last execution, where there is one that was neither aborted nor committed.
    pub fn attempt(&self) -> Option<&Attempt>
        ensures { option_map (λ attempt. attempt.now) result ≡ self.now.attempt }
    {
        match &self.attempt {
            Some(attempt) => Some(attempt),
            None => None,
        }
    }

    /// The last execution, where it was aborted and no other was kept since. The message has its entries still.
    pub fn former(&self) -> Option<&Attempt>
        ensures { option_map (λ attempt. attempt.now) result ≡ self.now.former }
    {
        match &self.former {
            Some(former) => Some(former),
            None => None,
        }
    }

    /// Takes the message to be executed, where it is ready, and returns its incarnation.
    pub fn take(&mut self) -> Option<u32>
        ensures taken { IfSome result (λ incarnation. (self.old.stage ≡ stage.Ready) × (incarnation ≡ self.old.incarnation) × (self.new ≡ taken self.old)) }
        ensures none { IfNone result ((self.old.stage ≢ stage.Ready) × (self.new ≡ self.old)) }
    {
        match self.stage {
            MessageStage::Ready => {
                self.stage = MessageStage::Running;
                Some(self.incarnation)
            }
            _ => None,
        }
    }

    /// Keeps the execution of a message that runs; the former one is gone. Returns whether it ran; nothing is changed else.
    pub fn put(&mut self, attempt: Box<Attempt>) -> bool
        ensures put { IsTrue result → (self.old.stage ≡ stage.Running) × (self.new ≡ executed self.old attempt.value) }
        ensures kept { IsFalse result → (self.old.stage ≢ stage.Running) × (self.new ≡ self.old) }
    {
        match self.stage {
            MessageStage::Running => {
                self.stage = MessageStage::Executed;
                self.attempt = Some(attempt);
                self.former = None;
                true
            }
            _ => false,
        }
    }

    /// Aborts the message, where it runs or was executed: it is ready for its next incarnation, and its execution is the former one. A
    /// committed message stays so.
    pub fn abort(&mut self) -> AbortOutcome
        ensures ready { result ≡ given.Ready → IsInHand self.old × (self.new ≡ aborted self.old) }
        ensures kept { result ≢ given.Ready → self.new ≡ self.old }
        ensures idle { result ≡ given.Kept → ¬ IsInHand self.old }
        ensures committed { self.old.stage ≡ stage.Committed → result ≡ given.Kept }
        ensures exhausted { result ≡ given.Exhausted → IsInHand self.old × (self.old.incarnation + 1 ≡ 2 ^ 32) }
    {
        match self.stage {
            MessageStage::Ready | MessageStage::Committed => AbortOutcome::Kept,
            MessageStage::Running | MessageStage::Executed => {
                let Some(next) = self.incarnation.checked_add(1) else {
                    return AbortOutcome::Exhausted;
                };
                self.incarnation = next;
                self.stage = MessageStage::Ready;
                if self.attempt.is_some() {
                    self.former = self.attempt.take();
                }
                AbortOutcome::Ready
            }
        }
    }

    /// The message is committed, where it runs: whoever commits decided it at once, so no execution is left. Returns whether it ran;
    /// nothing is changed else.
    pub fn settle(&mut self) -> bool
        ensures settled { IsTrue result → (self.old.stage ≡ stage.Running) × (self.new ≡ committed self.old) }
        ensures kept { IsFalse result → (self.old.stage ≢ stage.Running) × (self.new ≡ self.old) }
    {
        match self.stage {
            MessageStage::Running => {
                (self.stage, self.attempt) = (MessageStage::Committed, None);
                true
            }
            _ => false,
        }
    }

    /// The message is committed, where it was executed, and its execution is handed back; nothing is changed else.
    pub fn commit(&mut self) -> Option<Box<Attempt>>
        ensures committed { self.old.stage ≡ stage.Executed → (option_map (λ attempt. attempt.value) result ≡ self.old.attempt) × (self.new ≡ committed self.old) }
        ensures kept { self.old.stage ≢ stage.Executed → (result ≡ None) × (self.new ≡ self.old) }
    {
        match self.stage {
            MessageStage::Executed => {
                self.stage = MessageStage::Committed;
                self.attempt.take()
            }
            _ => None,
        }
    }
}
