use xs_cert::CertFault;
use xs_chars::DecodeFault;
use xs_class::Memory;
use xs_form::XmlFault;
use xs_outline::OutlineFault;
use xs_script::ScriptFault;
use xs_searches::CheckFault;
use xs_sheet::SheetFault;
use xs_talk::Outcome;
use xs_turn::TurnFault;
use xs_wf::WfFault;

/// Why a run goes no further.
#[derive(Drop)]
pub enum Stop {
    /// It ends with this outcome.
    Refused(Outcome),
    /// Memory ran out.
    Memory,
}

impl From<Memory> for Stop {
    ghost use Rattle.std.specs.Prelude.{◌≡◌};
    ghost use Rattle.xs_top.specs.declared.stop.Stop.TheVariants as fault;

    ghost from_gives = { λ _ e. e ≡ fault.Memory };

    fn from(_: Memory) -> Self {
        Stop::Memory
    }
}

impl From<SheetFault> for Stop {
    ghost use Rattle.std.specs.Prelude.{◌≡◌};
    ghost use Rattle.xs_top.specs.Stops.{stop_of_sheet};

    ghost from_gives = { λ fault e. e ≡ stop_of_sheet fault };

    fn from(fault: SheetFault) -> Self {
        match fault {
            SheetFault::SheetBad { at } => Stop::Refused(Outcome::SheetBad { at }),
            SheetFault::Memory => Stop::Memory,
        }
    }
}

impl From<WfFault> for Stop {
    ghost use Rattle.std.specs.Prelude.{◌≡◌};
    ghost use Rattle.xs_top.specs.Stops.{stop_of_rule};

    ghost from_gives = { λ fault e. e ≡ stop_of_rule fault };

    fn from(fault: WfFault) -> Self {
        match fault {
            WfFault::Ill(ill) => Stop::Refused(Outcome::SheetIll(ill)),
            WfFault::Memory => Stop::Memory,
        }
    }
}

impl From<DecodeFault> for Stop {
    ghost use Rattle.std.specs.Prelude.{◌≡◌};
    ghost use Rattle.xs_top.specs.Stops.{stop_of_text};

    ghost from_gives = { λ fault e. e ≡ stop_of_text fault };

    fn from(fault: DecodeFault) -> Self {
        match fault {
            DecodeFault::NotUtf8 { at } => Stop::Refused(Outcome::NotUtf8 { at }),
            DecodeFault::Memory => Stop::Memory,
        }
    }
}

impl From<XmlFault> for Stop {
    ghost use Rattle.std.specs.Prelude.{◌≡◌};
    ghost use Rattle.xs_top.specs.Stops.{stop_of_xml};

    ghost from_gives = { λ fault e. e ≡ stop_of_xml fault };

    fn from(fault: XmlFault) -> Self {
        match fault {
            XmlFault::NotXml { at } => Stop::Refused(Outcome::NotXml { at }),
            XmlFault::Memory => Stop::Memory,
        }
    }
}

impl From<TurnFault> for Stop {
    ghost use Rattle.std.specs.Prelude.{◌≡◌};
    ghost use Rattle.xs_top.specs.Stops.{stop_of_turn};

    ghost from_gives = { λ fault e. e ≡ stop_of_turn fault };

    fn from(fault: TurnFault) -> Self {
        match fault {
            TurnFault::Foreign { viable } => Stop::Refused(Outcome::Foreign { viable }),
            TurnFault::Memory => Stop::Memory,
        }
    }
}

impl From<OutlineFault> for Stop {
    ghost use Rattle.std.specs.Prelude.{◌≡◌};
    ghost use Rattle.xs_top.specs.Stops.{stop_of_outline};

    ghost from_gives = { λ fault e. e ≡ stop_of_outline fault };

    fn from(fault: OutlineFault) -> Self {
        match fault {
            OutlineFault::OutlineBad { line } => Stop::Refused(Outcome::OutlineBad { line }),
            OutlineFault::Memory => Stop::Memory,
        }
    }
}

impl From<ScriptFault> for Stop {
    ghost use Rattle.std.specs.Prelude.{◌≡◌};
    ghost use Rattle.xs_top.specs.Stops.{stop_of_script};

    ghost from_gives = { λ fault e. e ≡ stop_of_script fault };

    fn from(fault: ScriptFault) -> Self {
        match fault {
            ScriptFault::ScriptBad { line } => Stop::Refused(Outcome::ScriptBad { line }),
            ScriptFault::Memory => Stop::Memory,
        }
    }
}

impl From<CheckFault> for Stop {
    ghost use Rattle.std.specs.Prelude.{◌≡◌};
    ghost use Rattle.xs_top.specs.Stops.{stop_of_check};

    ghost from_gives = { λ fault e. e ≡ stop_of_check fault };

    fn from(fault: CheckFault) -> Self {
        match fault {
            CheckFault::Heavy { weight } => Stop::Refused(Outcome::Heavy { weight }),
            CheckFault::Memory => Stop::Memory,
        }
    }
}

impl From<CertFault> for Stop {
    ghost use Rattle.std.specs.Prelude.{◌≡◌};
    ghost use Rattle.xs_top.specs.Stops.{stop_of_certificate};

    ghost from_gives = { λ fault e. e ≡ stop_of_certificate fault };

    fn from(fault: CertFault) -> Self {
        match fault {
            CertFault::Heavy { weight } => Stop::Refused(Outcome::Heavy { weight }),
            CertFault::CertBad { line } => Stop::Refused(Outcome::CertBad { line }),
            CertFault::Memory => Stop::Memory,
        }
    }
}
