ghost use Rattle.std.specs.Prelude.{List};
ghost use Rattle.issuer_words.specs.Words.{Frame, ReplyBody, Rows};
ghost use Rattle.app_audit.specs.declared.audited.Audit.{Audit};
ghost use Rattle.app_audit.specs.declared.block_audit.BlockAudit.{BlockAudit};
ghost use Rattle.app_laws.specs.Audits.{AuditSaysSame, BlockAuditSaysSame};

/// Whatever an audit finds of the replies and the book that are read from the files of a run, it is `same`.
pub fn an_audit_behind_a_run_says_same()
    ensures { (rows : Rows) (frames : List Frame) (answers : List ReplyBody) (after : Rows) (found : Audit) → AuditSaysSame rows frames answers after found }
{}

/// The same of a block file.
pub fn an_audit_behind_blocks_says_same()
    ensures { (rows : Rows) (blocks : List (List Frame)) (answers : List (List ReplyBody)) (after : Rows) (found : BlockAudit) → BlockAuditSaysSame rows blocks answers after found }
{}
