//! The words of a page in German.

ghost use Rattle.std.specs.Prelude.{◌≡◌};
ghost use Rattle.chart.specs.Words.{german};
ghost use Rattle.chart.specs.Identifier.{german_kind};
ghost use Rattle.chart.specs.Causes.{german_cause};

use crate::word::Word;
use cbsp_wire::cause;

/// What the reader of the page is told.
pub const INTRODUCTION: &str = r#"</p>
<p class="pace">Gesendet wird eine Nachricht alle <b class="f5"></b>15 s <b class="f4"></b>30 s <b class="f3"></b>1 Minute
<b class="f2"></b>2 Minuten <b class="f1"></b>oder seltener</p>
<p>Ein Balken ist eine Nachricht von ihrem Anfang bis zu ihrem Ende, mit einem Strich, wo eine Aussendung vollständig
ist, oder mit deren Anzahl, wenn es über 400 sind oder die Zeit von einer zur nächsten weniger als 4 px einer Seite von
1280 px breit ist. Am kurzen dicken Strich zeigt ein Telefon sie zuerst. Ein roter Strich ist ein abgelehnter Auftrag.
Darunter steht die reservierte Last der Zelle: Am roten Rand ist sie voll.</p>
"#;

/// Its words.
pub(crate) fn german(word: Word) -> &'static str
    ensures { result.now ≡ german word }
{
    match word {
        Word::Code => "de",
        Word::Title => "Warnungen nach Zelle",
        Word::Run => "Ein Lauf von ",
        Word::Slots => " Slots (Zeitschlitzen) zu 1,883 s, ",
        Word::Slot => " Slot (Zeitschlitz) zu 1,883 s, ",
        Word::Begins => " Slot 0 beginnt um ",
        Word::BeginsEnd => "; Zeiten sind Tageszeiten in UTC.",
        Word::Part => " Gezeichnet von Slot ",
        Word::PartTo => " bis Slot ",
        Word::Introduction => INTRODUCTION,
        Word::Group => "Gruppe ",
        Word::Messages => "Nachrichten: ",
        Word::Refused => ", abgelehnt: ",
        Word::Fullest => ", Spitze: ",
        Word::ShareAt => " % um ",
        Word::Additional => ", in weiterer Sprache",
        Word::Broadcasts => " Aussendungen",
        Word::Broadcast => " Aussendung",
        Word::Unseen => "nicht gezeigt:",
        Word::RefusedBecause => "abgelehnt: ",
        Word::From => ": Slots ",
        Word::To => " bis ",
        Word::Every => ", alle ",
        Word::EverySlot => ", in jedem Slot",
        Word::Whole => ", Aussendungen: ",
        Word::Shown => ", zuerst gezeigt nach ",
        Word::NotShown => ", nicht gezeigt",
        Word::RefusedAt => ": abgelehnt bei Slot ",
        Word::Load => "Reservierte Last",
        Word::High => "hoch",
        Word::Normal => "normal",
        Word::Background => "Hintergrund",
        Word::Cell => "Zelle ",
        Word::Cells => "Zellen ",
        Word::CellsEnd => " Zellen",
        Word::And => " + ",
        Word::More => " weitere",
        Word::Overview => "Zellen",
        Word::Axis => "Slot, Zeit",
    }
}

/// The warning that an identifier of the first language means (3GPP TS 23.041, clause 9.4.1.2.2), with its level of
/// EU-Alert (ETSI TS 102 900); nothing of another number.
pub(crate) fn german_kind(id: u16) -> &'static str
    ensures { result.now ≡ german_kind id }
{
    match id {
        4352 => "ETWS: Erdbeben",
        4353 => "ETWS: Tsunami",
        4354 => "ETWS: Erdbeben und Tsunami",
        4355 => "ETWS: Test",
        4356 => "ETWS: anderes",
        4370 => "EU-Alert Stufe 1: höchste Stufe",
        4371 => "Stufe 2: extrem, unmittelbar, beobachtet",
        4372 => "Stufe 2: extrem, unmittelbar, wahrscheinlich",
        4373 => "Stufe 3: extrem, erwartet, beobachtet",
        4374 => "Stufe 3: extrem, erwartet, wahrscheinlich",
        4375 => "Stufe 3: schwer, unmittelbar, beobachtet",
        4376 => "Stufe 3: schwer, unmittelbar, wahrscheinlich",
        4377 => "Stufe 3: schwer, erwartet, beobachtet",
        4378 => "Stufe 3: schwer, erwartet, wahrscheinlich",
        4379 => "Kindesentführung: EU-Amber",
        4380 => "Test: monatlich",
        4381 => "Übung",
        4382 => "Eigener Gebrauch des Betreibers",
        4396 => "Stufe 4: öffentliche Sicherheit, EU-Info",
        4398 => "Test: Land oder Ort",
        _ => "",
    }
}

/// A cause of a refusal (3GPP TS 48.049, 8.2, Cause).
pub(crate) fn german_cause(number: u8) -> &'static str
    ensures { result.now ≡ german_cause number }
{
    match number {
        cause::PARAMETER_NOT_RECOGNISED => "Parameter nicht erkannt",
        cause::PARAMETER_VALUE_INVALID => "Wert eines Parameters nicht erlaubt",
        cause::MESSAGE_REFERENCE_NOT_IDENTIFIED => "es gibt nichts zu ersetzen oder zu stoppen",
        cause::CELL_IDENTITY_NOT_VALID => "Zelle unbekannt",
        cause::UNRECOGNISED_MESSAGE => "unbekannte Meldung",
        cause::MISSING_MANDATORY_ELEMENT => "ein notwendiges Element fehlt",
        cause::BSC_CAPACITY_EXCEEDED => "kein Platz mehr in der Zelle",
        cause::CELL_MEMORY_EXCEEDED => "64 Nachrichten sind schon reserviert",
        cause::BSC_MEMORY_EXCEEDED => "das Protokoll der Zelle ist voll",
        cause::CELL_BROADCAST_NOT_OPERATIONAL => "der Lauf ist dann vorbei",
        cause::EXTENDED_CHANNEL_NOT_SUPPORTED => "kein erweiterter Kanal",
        cause::MESSAGE_REFERENCE_ALREADY_USED => "Kennung und Seriennummer sind vergeben",
        _ => "anderer Grund",
    }
}
